// The fields that a message's rules speak of.
// Promised: an order id's value is that of its first 12 characters in base 36, and an id that breaks
// its rule is refused with 12, whatever its last two characters are (specs/Id.antt).
// `fields_rules` answers for the rules of the other fields (specs/Rules.antt).
// A host calls what is in `id`; `parts` are parts, for the crates above.
#![tactic(auto)]

pub mod id;
pub mod parts;
