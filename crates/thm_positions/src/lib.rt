// Which positions are announced, placed and handed out, over any list of calls from a fresh group: specs/Positions.antt says it, proofs/
// proves it.
#![tactic(auto)]
