// Definitions and theorems only: worked rows of a link's gauge.
#![tactic(auto)]
