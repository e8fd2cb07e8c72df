// Definitions and theorems only: the largest S and N as worked rows, each through the rules of a whole group.
#![tactic(auto)]
