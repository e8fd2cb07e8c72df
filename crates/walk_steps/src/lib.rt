// Lemmas only: the steps that a walk, a proof by hand over the program logic, takes again and again.
#![tactic(auto)]
