// Request 2026-14, only what was sent: what is claimed of two groups and one connection between them. specs/OnlySent has the request's sentences
// in its order; specs/Books what they speak of; specs/Plain the plain engine; specs/Reuse what follows besides.
#![tactic(auto)]

// The proof: what is under way in one direction between two ends, in positions (proofs/Way), and one step of it for each act of either end
// (proofs/Direction).

// What one call does at one end, in positions: its outcome (proofs/Turns), its bytes under way (proofs/Named).

// Both claims, proved in proofs/Theorem.

// Lists that meet the premises, lists that break one each, and what is read after them, all by computing the rules.
