// Definitions and theorems only: worked examples, computed by the rules that every call keeps.
#![tactic(auto)]
