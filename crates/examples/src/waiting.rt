// Packets kept and applied later: what waits, what applying a part of it does, and what is refused, old or
// asked for again meanwhile. The lines are those of the sessions.
use crate::sessions::lines;
use std::io;

pub fn run(rt: &impl Print) -> io::Result<()> {
    full(rt)?;
    tables(rt)?;
    copies(rt)?;
    old(rt)?;
    beats(rt)?;
    refusals(rt)?;
    missing(rt)
}

fn full(rt: &impl Print) -> io::Result<()> {
    lines(
        rt,
        "| fill 256 keep\n\
        256 wait from 1 on, apply by 0 | apply 0\n\
        then 257 (one too many) | keep 257 delete 0\n\
        apply by 1 | apply 1\n\
        then 257 (a place is free) | keep 257 delete 0\n\
        then 258 | keep 258 delete 0\n\
        apply by 100 | apply 100\n\
        apply by the largest number | apply 18446744073709551615\n\
        and again, with nothing left | apply 18446744073709551615\n\
        and its tables | report\n",
    )
}

// The second execution is of more than is left: a fault, once it is applied.
fn tables(rt: &impl Print) -> io::Result<()> {
    lines(
        rt,
        "| open 10\n\
        opened at 10, lowest | lowest\n\
        numbers 10 and 11 kept | keep 10 add 0 B 300 1250000 executed 0 - 100 200\n\
        number 12 kept | keep 12 executed 0 - 500 0\n\
        the tables while they wait | report\n\
        apply by 1 | apply 1\n\
        and its tables | report\n\
        apply by 1 again | apply 1\n\
        and its tables | report\n\
        apply by 2 with one left | apply 2\n\
        and its tables (12 faults now) | report\n",
    )
}

// The copies of 11 differ in the last byte of the quantity.
fn copies(rt: &impl Print) -> io::Result<()> {
    lines(
        rt,
        "| open 10\n\
        opened at 10, numbers 10 and 11 kept | keep 10 add 0 B 300 1250000 add 1 B 300 1250000\n\
        then 11 with one byte changed | keep 11 add 1 B 301 1250000\n\
        then 11 with one byte changed, and 12 (end stays) | keep 11 add 1 B 301 1250000 add 2 B 300 1250000\n\
        then 11 as it was | keep 11 add 1 B 300 1250000\n\
        then 11 as it was, and 12 (half of it waits) | keep 11 add 1 B 300 1250000 add 2 B 300 1250000\n\
        | apply 1\n\
        then 11 with one byte changed, once 10 was applied | keep 11 add 1 B 301 1250000\n\
        | apply 1\n\
        then 11 with one byte changed, once it was applied | keep 11 add 1 B 301 1250000\n",
    )
}

// The order that is told again would be a fault if it were applied again.
fn old(rt: &impl Print) -> io::Result<()> {
    lines(
        rt,
        "| open 10\n\
        | take 10 add 0 B 300 1250000\n\
        10 applied, then 10 kept (old) | keep 10 add 0 B 300 1250000\n\
        then numbers 10 and 11 (half of it old) | keep 10 add 0 B 300 1250000 add 1 B 300 1250000\n\
        apply by 2 | apply 2\n\
        and its tables | report\n",
    )
}

fn beats(rt: &impl Print) -> io::Result<()> {
    lines(
        rt,
        "| open 10\n\
        opened at 10, heartbeat 12 kept (end moves) | keep 12 beat\n\
        then heartbeat 11 kept (end stays) | keep 11 beat\n\
        then numbers 10 and 11 (the heartbeat used up none) | keep 10 add 0 B 300 1250000 executed 0 - 100 200\n\
        heartbeat 15 taken while they wait (they are applied) | beat 15\n\
        and its tables | report\n\
        and lowest | lowest\n",
    )
}

// Of packets taken while a message waits.
fn refusals(rt: &impl Print) -> io::Result<()> {
    lines(
        rt,
        "| open 10\n\
        | keep 10 add 0 B 300 1250000\n\
        10 waits, 10 with one byte changed taken | take 10 add 0 B 301 1250000\n\
        10 waits, 266 taken | take 266 delete 0\n\
        10 waits, 11 with MessageSize 20 taken | damage 11 13 20 delete 0\n\
        and its tables | report\n\
        10 waits, 12 taken (10 is applied) | take 12 delete 0\n\
        and lowest | lowest\n\
        then 11 kept | keep 11 update 0 - 200 1240000\n\
        and taken again while it waits | take 11 update 0 - 200 1240000\n",
    )
}

fn missing(rt: &impl Print) -> io::Result<()> {
    lines(
        rt,
        "| open 10\n\
        | keep 10 add 0 B 300 1250000 add 1 B 300 1250000\n\
        numbers 10, 11 and 14 kept | keep 14 add 2 B 300 1250000\n\
        then heartbeat 600 | keep 600 beat\n\
        gap from 0 | gap 0\n\
        gap from 13 | gap 13\n\
        gap from 14 (up to the window's end) | gap 14\n\
        gap from 600 | gap 600\n\
        requests | write 24\n\
        requests, one byte too few | write 23\n\
        apply by 1 | apply 1\n\
        gap from 14 (the window moved) | gap 14\n\
        requests | write 24\n\
        apply by 100 (up to the gap) | apply 100\n\
        requests | write 24\n\
        12 and 13 kept | keep 12 add 3 B 300 1250000 add 4 B 300 1250000\n\
        and lowest (14 waits too) | lowest\n\
        requests | write 12\n",
    )
}
