// Definitions and theorems only: link messages and link sends as worked rows, each through the rules of a whole group.
#![tactic(auto)]

// Definitions and theorems only: request 2026-01's worked example, computed by the rules of link message and link send.
