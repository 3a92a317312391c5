// What the programs' lines are made of and taken apart with.
//
// All of these are parts, for the crates `capture`, `desk` and `examples`: a line's words, numbers in
// decimal, bytes in hex, answers built up in a lent buffer, and standard input read by the buffer. A
// number and bytes are read by what specs/ says, and a text is put whole or not at all.
#![tactic(auto)]

pub mod hex;
pub mod input;
pub mod number;
pub mod output;
pub mod words;
