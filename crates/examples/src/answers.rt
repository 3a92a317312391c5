// Printing what a session answers.
ghost use Rattle.session.specs.Meaning.{Ruled};
ghost use Rattle.session_owned.specs.Holding.{held_by};

use crate::made;
use book::asking::Level;
use book::tables::{Inside, OpeningRule, Order};
use printing::answers::refusal;
use printing::words::label;
use refusals::Refusal;
use session::asking;
use session_owned::Owned;
use std::io;

// The answer to a packet, then next and end.
pub fn taken(
    rt: &impl Print,
    name: &[u8],
    owned: &Owned,
    said: Result<u64, Refusal>,
) -> io::Result<()> {
    label(rt, name)?;
    match said {
        Ok(count) => print!(rt; "applied {count}")?,
        Err(refused) => refusal(rt, refused)?,
    }
    numbers(rt, owned)?;
    println!(rt; "")
}

// The answer to a packet that is kept, then next, end and lowest.
pub fn kept(
    rt: &impl Print,
    name: &[u8],
    owned: &Owned,
    said: Result<u64, Refusal>,
) -> io::Result<()>
    requires { Ruled (held_by owned.now) }
{
    label(rt, name)?;
    match said {
        Ok(count) => print!(rt; "kept {count}")?,
        Err(refused) => refusal(rt, refused)?,
    }
    waiting(rt, owned)
}

// How many were applied of those that waited, then the same.
pub fn applied(rt: &impl Print, name: &[u8], owned: &Owned, count: u64) -> io::Result<()>
    requires { Ruled (held_by owned.now) }
{
    label(rt, name)?;
    print!(rt; "applied {count}")?;
    waiting(rt, owned)
}

fn waiting(rt: &impl Print, owned: &Owned) -> io::Result<()>
    requires { Ruled (held_by owned.now) }
{
    numbers(rt, owned)?;
    println!(rt; ", lowest {}", asking::lowest(&owned.room, &owned.window))
}

pub fn numbers(rt: &impl Print, owned: &Owned) -> io::Result<()> {
    let next = asking::next(&owned.room);
    let end = asking::end(&owned.room);
    print!(rt; ", next {next}, end {end}")
}

// What the tables say: faults, the first order, the best bid and ask, the first inside.
pub fn report(rt: &impl Print, owned: &Owned) -> io::Result<()>
    requires { Ruled (held_by owned.now) }
{
    faults(rt, owned)?;
    order(
        rt,
        asking::order(owned.session, &owned.room, made::id_of(0)),
    )?;
    bests(rt, owned)?;
    inside(rt, asking::inside(&owned.room, made::symbol_of(0)))
}

fn faults(rt: &impl Print, owned: &Owned) -> io::Result<()> {
    let faults = asking::faults(&owned.room);
    print!(rt; ": faults {}", faults.count)?;
    if faults.count != 0 {
        print!(rt; ", first {} by {}", faults.number, faults.reason)?;
    }
    Ok(())
}

fn order(rt: &impl Print, answer: Result<Order, Refusal>) -> io::Result<()> {
    print!(rt; "; order ")?;
    match answer {
        Ok(order) => print!(rt; "{} {}", order.shares, order.price),
        Err(refused) => refusal(rt, refused),
    }
}

fn bests(rt: &impl Print, owned: &Owned) -> io::Result<()>
    requires { Ruled (held_by owned.now) }
{
    let symbol = *b"MSFTF         ";
    best(rt, asking::best(owned.session, &owned.room, symbol, b'B'))?;
    best(rt, asking::best(owned.session, &owned.room, symbol, b'S'))
}

fn best(rt: &impl Print, answer: Result<Level, Refusal>) -> io::Result<()> {
    print!(rt; "; best ")?;
    match answer {
        Ok(level) => print!(rt; "{} {} {}", level.price, level.shares, level.orders),
        Err(refused) => refusal(rt, refused),
    }
}

fn inside(rt: &impl Print, answer: Result<Inside, Refusal>) -> io::Result<()> {
    print!(rt; "; inside ")?;
    match answer {
        Ok(inside) => print!(rt; "{} {}", inside.ask, inside.bid),
        Err(refused) => refusal(rt, refused),
    }
}

// The rule for types that are not in the table, how many such messages were counted apart, and whether
// the book is doubtful.
pub fn unlisted(rt: &impl Print, owned: &Owned) -> io::Result<()> {
    match asking::rule(&owned.room) {
        OpeningRule::Default => print!(rt; ": rule default")?,
        OpeningRule::Strict => print!(rt; ": rule strict")?,
    }
    print!(rt; ", unlisted {}", asking::unlisted(&owned.room))?;
    if asking::doubtful(&owned.room) {
        print!(rt; ", doubtful")?;
    }
    Ok(())
}

pub fn code(rt: &impl Print, owned: &Owned) -> io::Result<()> {
    print!(rt; ": code {}", asking::code(&owned.room))
}

// The lowest number not carried.
pub fn lowest(rt: &impl Print, owned: &Owned) -> io::Result<()>
    requires { Ruled (held_by owned.now) }
{
    print!(rt; ": lowest {}", asking::lowest(&owned.room, &owned.window))
}
