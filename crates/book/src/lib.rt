// The order table and the inside table: what a message does to them, and what can be asked of them.
//
// specs/Applying.antt says what a message does: the lowest fault that holds is recorded and changes
// nothing else. `book_deciding` works that out on small values, from the message's bytes; `book_room` and the session
// carry it out, with `lookup`. `asking` has the replies to the questions (specs/Asking.antt). The rule
// of the tables in their places is `Kept` of specs/Rule.antt: an opening gives it, every message keeps it.
#![tactic(auto)]

pub mod asking;
pub mod deciding;
pub mod lookup;
pub mod tables;
