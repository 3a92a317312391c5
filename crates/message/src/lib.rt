// One message of the overnight channels: its kinds, its fields by type, and the payload sizes.
//
// The payloads, the layouts, the field rules and reading stand in specs/, one file each. `message_read` has the call that
// reads one message, `message_write` the one that writes one, both along the same layouts: what is written reads back, and
// what was read is written back to its own bytes (message_write/proofs/Trips.antt). `message_layouts` reads the fields of a
// type and `message_rules` tests them, for reading and for the tables.
#![tactic(auto)]

mod kinds;
pub mod layouts;
mod making;
pub mod table;
mod types;

pub use kinds::{Body, Message, Terms};
pub use table::{HEADER, LONGEST};
pub use types::{Kind, NoKind};
