// Types that are not in the table, by default and strictly, and the Imbalance, which is listed. The lines are
// those of the sessions.
use crate::sessions::lines;
use std::io;

pub fn run(rt: &impl Print) -> io::Result<()> {
    by_default(rt)?;
    strictly(rt)?;
    among_faults(rt)?;
    later(rt)
}

// The Delete of the live order with the byte of its type changed removes nothing.
fn by_default(rt: &impl Print) -> io::Result<()> {
    lines(
        rt,
        "at the start | unlisted\n\
        | open 10\n\
        opened at 10 by default | unlisted\n\
        | take 10 add 0 B 300 1250000\n\
        types 0, 10, 29 and 255 in one packet | empty 11 0 10 29 255\n\
        by default | unlisted\n\
        and its tables | report\n\
        then an Imbalance | damage 15 14 28 delete 0\n\
        by default (28 is listed) | unlisted\n\
        then a Delete with type 0 | damage 16 14 0 delete 0\n\
        by default | unlisted\n\
        and its tables | report\n\
        | open 10\n\
        opened again | unlisted\n",
    )
}

fn strictly(rt: &impl Print) -> io::Result<()> {
    lines(
        rt,
        "| strict 10\n\
        opened at 10 strictly | unlisted\n\
        an Imbalance | damage 10 14 28 delete 0\n\
        strictly (28 is listed) | unlisted\n\
        and its tables | report\n\
        then types 0, 10, 29 and 255 in one packet | empty 11 0 10 29 255\n\
        strictly | unlisted\n\
        and its tables | report\n\
        | open 10\n\
        opened again by default | unlisted\n\
        | empty 10 0 10 29 255\n\
        | strict 10\n\
        opened again strictly, once four were counted apart | unlisted\n\
        and its tables | report\n",
    )
}

// A Delete of no live order is fault 5 by both.
fn among_faults(rt: &impl Print) -> io::Result<()> {
    lines(
        rt,
        "| open 10\n\
        | damage 10 14 255 delete 0\n\
        | take 11 delete 0 - - - delete 0\n\
        | empty 13 0 28 28 29\n\
        an unlisted type, two faults, and two unlisted types, by default | unlisted\n\
        and its tables | report\n\
        | strict 10\n\
        | damage 10 14 255 delete 0\n\
        | take 11 delete 0 - - - delete 0\n\
        | empty 13 0 28 28 29\n\
        the same, strictly | unlisted\n\
        and its tables | report\n\
        | strict 10\n\
        | take 10 delete 0\n\
        | empty 11 0 28 28 29\n\
        a fault, then two unlisted types, strictly | unlisted\n\
        and its tables | report\n",
    )
}

// What waits is not counted before it is applied, and what is old is not counted again.
fn later(rt: &impl Print) -> io::Result<()> {
    lines(
        rt,
        "| open 10\n\
        numbers 11 to 14 (they wait) | empty 11 0 10 29 255\n\
        by default | unlisted\n\
        then number 10 (the others follow it) | take 10 add 0 B 300 1250000\n\
        by default | unlisted\n\
        then 11 to 14 again (old) | empty 11 0 10 29 255\n\
        by default | unlisted\n\
        and its tables | report\n",
    )
}
