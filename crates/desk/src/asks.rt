// The commands that ask a session: state, unlisted, rule, lowest, order, best, inside, requests.
ghost use Rattle.session.specs.Meaning.{Ruled};
ghost use Rattle.session_owned.specs.Holding.{held_by};

use crate::reads::{bad, text_of};
use book::asking::Level;
use book::tables::{Inside, OpeningRule, Order};
use printing::answers::{refusal, refused};
use printing::words::bytes;
use refusals::Refusal;
use session::asking;
use session_owned::Owned;
use std::io;
use text::number::parse;
use text::words::word;

// `next`, `end`, the code and the count of faults; behind them the first fault, where there is one.
pub fn state(rt: &impl Print, owned: &Owned) -> io::Result<()> {
    let next = asking::next(&owned.room);
    let end = asking::end(&owned.room);
    let code = asking::code(&owned.room);
    let faults = asking::faults(&owned.room);
    print!(rt; "{next} {end} {code} {}", faults.count)?;
    if faults.count != 0 {
        print!(rt; " {} {}", faults.number, faults.reason)?;
    }
    println!(rt; "")
}

// How many messages of a type that is not in the table were counted apart.
pub fn unlisted(rt: &impl Print, owned: &Owned) -> io::Result<()> {
    println!(rt; "unlisted {}", asking::unlisted(&owned.room))
}

// The rule of the opening for such types.
pub fn rule(rt: &impl Print, owned: &Owned) -> io::Result<()> {
    match asking::rule(&owned.room) {
        OpeningRule::Default => println!(rt; "rule default"),
        OpeningRule::Strict => println!(rt; "rule strict"),
    }
}

// The lowest number not carried.
pub fn lowest(rt: &impl Print, owned: &Owned) -> io::Result<()>
    requires { Ruled (held_by owned.now) }
{
    println!(rt; "lowest {}", asking::lowest(&owned.room, &owned.window))
}

pub fn order(rt: &impl Print, owned: &Owned, line: &[u8]) -> io::Result<()>
    requires { Ruled (held_by owned.now) }
{
    let Some(id) = text_of(word(line, 1)) else {
        return bad(rt);
    };
    match asking::order(owned.session, &owned.room, id) {
        Ok(order) => known_order(rt, order),
        Err(refusal) => refused(rt, refusal),
    }
}

fn known_order(rt: &impl Print, order: Order) -> io::Result<()> {
    print!(rt; "order {} {} {}", order.id, order.side, order.shares)?;
    bytes(rt, &order.symbol)?;
    print!(rt; " {}", order.price)?;
    bytes(rt, &order.firm)?;
    println!(rt; " {}", order.unsolicited)
}

pub fn best(rt: &impl Print, owned: &Owned, line: &[u8]) -> io::Result<()>
    requires { Ruled (held_by owned.now) }
{
    let Some(symbol) = text_of(word(line, 1)) else {
        return bad(rt);
    };
    let Some(side) = parse(word(line, 2), 255) else {
        return bad(rt);
    };
    match asking::best(owned.session, &owned.room, symbol, side as u8) {
        Ok(
            Level {
                price,
                shares,
                orders,
            },
        ) => println!(rt; "best {price} {shares} {orders}"),
        Err(refusal) => refused(rt, refusal),
    }
}

pub fn inside(rt: &impl Print, owned: &Owned, line: &[u8]) -> io::Result<()>
    requires { Ruled (held_by owned.now) }
{
    let Some(symbol) = text_of(word(line, 1)) else {
        return bad(rt);
    };
    match asking::inside(&owned.room, symbol) {
        Ok(inside) => known_inside(rt, inside),
        Err(refusal) => refused(rt, refusal),
    }
}

fn known_inside(rt: &impl Print, inside: Inside) -> io::Result<()> {
    print!(rt;
        "inside {} {} {}",
        inside.time, inside.ask, inside.askvolume
    )?;
    println!(rt;
        " {} {} {}",
        inside.bid, inside.bidvolume, inside.unsolicited
    )
}

// The answer, then the buffer whole.
pub fn requests(rt: &impl Print, owned: &Owned, line: &[u8]) -> io::Result<()>
    requires { Ruled (held_by owned.now) }
{
    let Some(size) = parse(word(line, 1), 2048) else {
        return bad(rt);
    };
    let mut buffer = [0xEEu8; 2048];
    let buffer = &mut buffer[..size as usize];
    asked(rt, asking::requests(&owned.room, &owned.window, buffer))?;
    bytes(rt, buffer)?;
    println!(rt; "")
}

fn asked(rt: &impl Print, said: Result<usize, Refusal>) -> io::Result<()> {
    match said {
        Ok(count) => print!(rt; "requests {count}"),
        Err(refused) => refusal(rt, refused),
    }
}
