// The group's rules: specs/Rules.antt says what each call answers and leaves, specs/Promises.antt what the functions of a call promise.
#![tactic(auto)]
