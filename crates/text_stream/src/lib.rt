// The standard input and the standard output as streams of bytes, each through a buffer of 65536 bytes, and why a line does not parse.
#![tactic(auto)]

pub mod input;
pub mod output;
pub mod why;
