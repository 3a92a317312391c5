// Parts: the tables' numbers in the room that a host lends, and what a message changes there.
//
// specs/Room.antt says where each thing lies. An order's record stands in the session's table and not
// here: `adding` and `changing` answer what is to be done there, `telling` touches no order.
#![tactic(auto)]

pub mod adding;
pub mod changing;
pub mod finding;
pub mod marking;
pub mod room;
pub mod telling;
pub mod unlisted;
