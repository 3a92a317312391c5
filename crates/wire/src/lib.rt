// Numbers and texts at a place in lent bytes, big endian.
//
// All of these are parts: each asks that its bytes lie within what is lent. A reader answers what
// specs/Number.antt says stands there; a writer changes those bytes and no other. A layout
// (specs/Layout.antt) is a list of such fields, and its laws are proved once, over the width.
#![tactic(auto)]

mod number;
mod read;
mod write;

pub use number::{Number, number_at, put_number};
pub use read::text_at;
pub use write::put_text;
