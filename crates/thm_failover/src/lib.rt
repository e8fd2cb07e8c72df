// Failover, request 2026-13: specs/Resilience.antt says what is claimed, proofs/ proves it of the rules that the contracts cite.
#![tactic(auto)]
