// The session: a fresh one for an opening number, taking packets, asking for what was lost, and the questions.
#![tactic(auto)]

pub mod advancing;
pub mod asking;
pub mod packets;
pub mod running;
pub mod settling;
pub mod state;
pub mod touching;
