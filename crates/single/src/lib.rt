// One id, header, message or packet by itself, with no session, told in numbers over lists that are lent. Each answers
// the refusal, 0 where there is none; a refusal leaves what was lent as it stood, but for where a walk says its refusal
// rests.
#![tactic(auto)]

pub mod headers;
pub mod ids;
pub mod messages;
pub mod telling;
pub mod walking;
mod words;
