// What an urgent place holds back and what lets us send again (specs/Urgent.antt), and that a gather is a send of the joined bytes
// (specs/Gather.antt).
#![tactic(auto)]
