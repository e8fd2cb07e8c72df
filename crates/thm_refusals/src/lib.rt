// When each call is refused, and with which number, of any group: specs/Refusals.antt says it, proofs/ proves it of the rules that the
// contracts cite.
#![tactic(auto)]
