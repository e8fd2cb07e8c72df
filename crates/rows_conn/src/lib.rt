// Definitions and theorems only: the calls of a connection and the desk as worked rows, each through the rules of a whole group.
#![tactic(auto)]
