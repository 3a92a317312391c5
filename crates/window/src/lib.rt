// The messages that wait, and the numbers that are missing.
//
// All of these are parts of a session, which owns the window: 256 places of 128 bytes in one array
// (specs/Window.antt). Keeping and freeing change one place and no other byte; the runs of missing
// numbers are those of specs/Runs.antt.
#![tactic(auto)]

pub mod asking;
mod copying;
pub mod missing;
pub mod places;
