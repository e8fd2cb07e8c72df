// Sentence 3 and "Who sees what": specs/Statement.antt says what is claimed, proofs/ proves it of the rules that the contracts cite.
#![tactic(auto)]
