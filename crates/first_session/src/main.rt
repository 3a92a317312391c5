// A first session: opened at 10, a heartbeat that says 12, and the request for what is missing.
#![tactic(auto)]

use book::tables::OpeningRule;
use refusals::Refusal;
use session::state::Session;
use session::{asking, packets};
use std::fmt::Display;
use std::io;

fn told<T: Display + Drop>(
    rt: &impl Print,
    label: &str,
    answer: Result<T, Refusal>,
) -> io::Result<()> {
    match answer {
        Ok(count) => println!(rt; "{label} {count}"),
        Err(refusal) => println!(rt; "refused {refusal}"),
    }
}

fn main(rt: HostRuntime) -> io::Result<()> {
    let mut room = [0u64; Session::ROOM];
    let mut window = [0u8; Session::PLACES];
    let session = Session::open(10, OpeningRule::Default, &mut room, &mut window);
    let heartbeat = [0u8, 12, 0, 0, 0, 12, 1, 0, 0, 0, 0, 0];
    let taken = packets::take(session, &mut room, &mut window, &heartbeat);
    told(&rt, "applied", taken.answer)?;
    println!(rt; "next {}", asking::next(&room))?;
    println!(rt; "end {}", asking::end(&room))?;
    let mut requests = [0u8; 12];
    told(
        &rt,
        "requests",
        asking::requests(&room, &window, &mut requests),
    )
}
