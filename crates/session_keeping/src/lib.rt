// Keeping packets, one or a burst of them, and taking one that applies nothing: no table is touched or copied.
//
// A packet that is kept waits to be applied (`session::packets::apply`). The laws over all calls stand here: demand 3
// (proofs/Demand3.antt) and what else document 01 promises of taking a packet (proofs/Promises.antt).
#![tactic(auto)]

pub mod keeping;
pub mod passing;
