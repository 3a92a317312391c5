// A packet of the overnight channels, with no session: its header, read and written; `packet_judge` walks its messages and
// judges it by the tests 1 to 8.
//
// `read_header`, `write_header` and `packet_judge::judge` answer for every byte string, of any length, as document 01 says. The
// first test that applies decides, and each keeps the byte offset that it rests on
// (specs/Header.antt, specs/Judging.antt). The walk steps by MessageSize (specs/Walk.antt).
#![tactic(auto)]

pub mod header;
mod heading;

pub use header::{HEADER, Header, LONGEST, Rejection, read_header};
pub use heading::write_header;
