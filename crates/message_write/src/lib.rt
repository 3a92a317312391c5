// Writing one message of the overnight channels.
//
// `write` answers for every message, every buffer and every place, as document 01 says: 14, then 11,
// else the count of bytes written (specs/Writing.antt). Other bytes stay, and on a refusal all do.
// proofs/Trips.antt has the two round trips: written reads back the same, and what was read is
// written back to its own bytes.
#![tactic(auto)]

mod place;

pub use place::write;
