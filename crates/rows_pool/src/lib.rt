// Definitions and theorems only: worked rows of the pool's books.
#![tactic(auto)]
