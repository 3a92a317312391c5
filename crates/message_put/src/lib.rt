// Parts: the fields of one message of the overnight channels, put at a place (`message_write` is the call).
#![tactic(auto)]

pub mod put;
