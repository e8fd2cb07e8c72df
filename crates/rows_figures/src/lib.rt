// Definitions and theorems only: whole messages as RFC 7609's figures draw them, written and read.
#![tactic(auto)]
