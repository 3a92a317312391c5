// The cases of the program `examples` that need no session: a table each, a case a line, printed with
// what the library answers.
//
// `rows` takes a line apart, by what specs/Lines.antt says. All of these are parts, for that program.
#![tactic(auto)]

pub mod headers;
pub mod ids;
pub mod messages;
pub mod rows;
mod samples;
pub mod sweeps;
pub mod walks;
pub mod writes;
