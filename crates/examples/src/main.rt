// The published example, document 01's worked examples, and a table of cases, one line each:
// what is lent, and what the library answers.
#![tactic(auto)]

mod answers;
mod bursts;
mod keeping;
mod made;
mod sessions;
mod unlisted;
mod waiting;

use std::io;

fn main(rt: HostRuntime) -> io::Result<()> {
    examples_cases::ids::run(&rt)?;
    examples_cases::headers::run(&rt)?;
    examples_cases::messages::run(&rt)?;
    examples_cases::sweeps::run(&rt)?;
    examples_cases::writes::run(&rt)?;
    sessions::run(&rt)?;
    waiting::run(&rt)?;
    unlisted::run(&rt)?;
    bursts::run(&rt)?;
    examples_cases::walks::run(&rt)
}
