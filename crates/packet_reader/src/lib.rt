// A packet of the overnight channels walked without a session: 1 to 7 first, then message by message, each of them a
// piece of the lent bytes themselves; past the last one every step answers "none".
//
// `open`, `refusal` and `step` are over a `Reader`, which holds the packet (specs/Steps.antt). `judge::judge`,
// `message_of` and `frame_of` have plain parameters (specs/Reading.antt), for a caller that holds no reader, and so has
// `plain`, which opens, asks and steps one for such a caller. Every call answers for every byte string, and nothing is
// written.
#![tactic(auto)]

pub mod cursor;
pub mod judge;
pub mod number;
pub mod plain;
pub mod read;

pub use cursor::{Cursor, Frame};
pub use number::{frame_of, message_of};
pub use read::{Handed, Reader, open, refusal, step};
