// Parts of taking packets that need no tables: tests 9 and 10, keeping a packet's messages, and going
// from one packet of a burst to the next.
#![tactic(auto)]

pub mod admitting;
pub mod burst;
pub mod differing;
pub mod keeping;
