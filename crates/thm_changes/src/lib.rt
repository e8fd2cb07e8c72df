// What a call may change: of any group its records, bytes and links (specs/Changes.antt), and over any list of calls from a fresh group
// which numbers it takes and what its gauges hold (specs/Numbers.antt, specs/Gauges.antt).
#![tactic(auto)]
