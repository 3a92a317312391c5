// What the programs print on standard output: words, numbers and bytes, and the answers of the calls
// that need no session.
//
// All of these are parts, for the crates `desk` and `examples`. No contract can say what is printed:
// what these programs print is held by the file `stdout` of each.
#![tactic(auto)]

pub mod answers;
mod layout;
pub mod words;
