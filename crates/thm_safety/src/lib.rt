// What stays true over any list of calls from a fresh group: specs/Statement.antt says what is claimed, proofs/ proves it of the rules that
// the contracts cite.
#![tactic(auto)]
