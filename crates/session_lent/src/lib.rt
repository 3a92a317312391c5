// The engine over a session that lies where a C host holds it.
#![tactic(auto)]

pub use session::running::run;
