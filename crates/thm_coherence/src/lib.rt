// Definitions and theorems only: when an open record is coherent, in numbers.
#![tactic(auto)]
