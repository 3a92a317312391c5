// Packets handed to a session: what they do to its tables, which are refused, what waits, and what is
// asked for again. A line goes on with the session that the line before it left, and one with no label
// prints nothing.
ghost use Rattle.session.specs.Meaning.{Ruled};
ghost use Rattle.session_owned.specs.Holding.{held_by};

use crate::made::told;
use crate::{answers, keeping, made};
use book::tables::OpeningRule;
use examples_cases::rows;
use examples_cases::rows::number;
use printing::answers::refusal;
use printing::words::{bytes, put};
use refusals::Refusal;
use session::asking;
use session_owned::Owned;
use std::io;

pub fn run(rt: &impl Print) -> io::Result<()> {
    executions(rt)?;
    orders(rt)?;
    broken(rt)?;
    bests(rt)?;
    full(rt)?;
    numbers(rt)?;
    copies(rt)?;
    missing(rt)
}

fn executions(rt: &impl Print) -> io::Result<()> {
    lines(
        rt,
        "| open 1\n\
        | take 1 add 0 B 300 1250000 executed 0 - 500 0\n\
        P9 order of 300, executed 500 | report\n\
        | open 1\n\
        | take 1 add 0 B 300 1250000 executed 0 - 300 0\n\
        P10 order of 300, executed 300, remaining 0 | report\n\
        | open 1\n\
        | take 1 add 0 B 300 1250000 executed 0 - 100 199\n\
        P11 order of 300, executed 100, remaining 199 | report\n\
        | open 1\n\
        | take 1 add 0 B 300 1250000 executed 0 - 100 200\n\
        order of 300, executed 100, remaining 200 | report\n\
        | open 1\n\
        | take 1 add 0 B 300 1250000 executed 0 - 500 500\n\
        6 before 7: executed 500, remaining 500 | report\n\
        | open 1\n\
        | take 1 executed 0 - 500 500\n\
        5 before 6: executed of no live order | report\n\
        | open 1\n\
        | take 1 add 0 B 300 1250000 executed 0 - 500 0\n\
        | take 3 executed 0 - 100 199 add 0 B 300 1250000\n\
        the first fault stays | report\n",
    )
}

fn orders(rt: &impl Print) -> io::Result<()> {
    lines(
        rt,
        "| open 1\n\
        | take 1 add 0 B 300 1250000 add 0 S 100 1\n\
        Add of a live order | report\n\
        | open 1\n\
        | take 1 add 0 B 300 1250000 update 0 - 200 1240000\n\
        Update replaces shares and price | report\n\
        | open 1\n\
        | take 1 add 0 B 300 1250000 delete 0\n\
        Delete removes | report\n\
        | take 3 add 0 S 100 1260000\n\
        an id again after it left | report\n\
        | open 1\n\
        | take 1 delete 0\n\
        Delete of no live order | report\n\
        | open 1\n\
        | take 1 add 0 B 300 1250000 add 1 B 50 1250000\n\
        | take 3 delete 1\n\
        Delete of another order | report\n\
        | open 1\n\
        | take 1 add 1 B 50 1 add 0 B 300 1250000\n\
        | take 3 delete 1\n\
        the last order takes a freed place | report\n",
    )
}

// A message with one byte of its packet changed: what no writer would write.
fn broken(rt: &impl Print) -> io::Result<()> {
    lines(
        rt,
        "| strict 1\n\
        | take 1 add 0 B 300 1250000\n\
        | damage 2 14 74 delete 0\n\
        1: a type that is not listed, strictly | report\n\
        | open 1\n\
        | take 1 add 0 B 300 1250000\n\
        | damage 2 14 74 delete 0\n\
        a type that is not listed, by default | report\n\
        | open 1\n\
        | take 1 add 0 B 300 1250000\n\
        | damage 2 33 88 add 0 B 300 1250000\n\
        2 before 3: Add of a live order, side X | report\n\
        | open 1\n\
        | damage 1 19 97 delete 0\n\
        2 before 5: Delete with a bad id | report\n\
        | open 1\n\
        | take 1 add 0 B 300 1250000\n\
        | damage 2 32 97 delete 0\n\
        Delete with other last characters | report\n",
    )
}

fn bests(rt: &impl Print) -> io::Result<()> {
    lines(
        rt,
        "| open 1\n\
        | take 1 add 0 B 300 1250000 add 1 B 200 1250000\n\
        | take 3 add 2 B 900 1240000\n\
        bids 300 and 200 at 1,250,000, 900 at 1,240,000 | report\n\
        | open 1\n\
        | take 1 add 0 S 10 1260000 add 1 S 20 1255000\n\
        asks at 1,260,000 and 1,255,000 | report\n\
        | open 1\n\
        | take 1 top 0 - 1260000 1250000 top 0 - 1270000 0\n\
        an inside, then another for its symbol | report\n\
        | open 1\n\
        nothing applied | report\n",
    )
}

fn full(rt: &impl Print) -> io::Result<()> {
    lines(
        rt,
        "| fill 256 add\n\
        256 live orders | report\n\
        | take 257 add 256 B 1 1\n\
        the 257th order | report\n\
        | fill 256 add\n\
        | take 257 add 0 B 1 1\n\
        3 before 4: the first order again with 256 live | report\n\
        | fill 256 add\n\
        | take 257 delete 255\n\
        with 256 live, one leaves | report\n\
        | fill 64 top\n\
        64 insides | report\n\
        | take 65 top 64 - 1 1\n\
        the 65th inside | report\n\
        | fill 64 top\n\
        | take 65 top 0 - 1280000 1240000\n\
        with 64 insides, the first again | report\n",
    )
}

fn numbers(rt: &impl Print) -> io::Result<()> {
    lines(
        rt,
        "| open 1000\n\
        P7 opened at 1,000, number 1,255 | take 1255 add 0 B 300 1250000\n\
        P7 gap from 1,000 | gap 1000\n\
        | open 1000\n\
        P8 opened at 1,000, number 1,256 | take 1256 add 0 B 300 1250000\n\
        | open 4294967295\n\
        SeqNum 4,294,967,295, two messages | take 4294967295 add 0 B 300 1250000 add 1 B 300 1250000\n\
        | open 4294967295\n\
        SeqNum 4,294,967,295, one message | take 4294967295 add 0 B 300 1250000\n\
        the same packet behind the last number | take 4294967295 add 0 B 300 1250000\n\
        | open 10\n\
        opened at 10, heartbeat 12 (end moves) | beat 12\n\
        then number 10 (the heartbeat used up none) | take 10 add 0 B 300 1250000\n\
        then heartbeat 11 (end stays) | beat 11\n",
    )
}

// The order that is told again would be a fault if it were applied again. The copies of 12 differ in
// the last byte of the quantity. The execution is a fault before its order.
fn copies(rt: &impl Print) -> io::Result<()> {
    lines(
        rt,
        "| open 10\n\
        opened at 10, number 10 | take 10 add 0 B 300 1250000\n\
        then numbers 10 and 11 (half of it old) | take 10 add 0 B 300 1250000 add 1 B 300 1250000\n\
        and its tables | report\n\
        | open 10\n\
        opened at 10, number 12 (waits) | take 12 add 0 B 300 1250000\n\
        then 12 with one byte changed | take 12 add 0 B 301 1250000\n\
        then 12 with one byte changed, and 13 (end stays) | take 12 add 0 B 301 1250000 add 1 B 300 1250000\n\
        then 12 as it was | take 12 add 0 B 300 1250000\n\
        | open 10\n\
        opened at 10, number 11 (waits) | take 11 executed 0 - 100 200\n\
        then number 10 (11 follows it) | take 10 add 0 B 300 1250000\n\
        and its tables | report\n\
        | open 10\n\
        opened | code\n\
        | take 10 session 5\n\
        then Trading Session 5 | code\n",
    )
}

fn missing(rt: &impl Print) -> io::Result<()> {
    lines(
        rt,
        "| open 10\n\
        P12 opened at 10, numbers 12 and 13 | take 12 add 0 B 300 1250000 add 1 B 300 1250000\n\
        P12 requests | write 24\n\
        P12 requests, exact room | write 12\n\
        P12 requests, one byte too few | write 11\n\
        | open 10\n\
        | take 12 add 0 B 300 1250000\n\
        opened at 10, numbers 12 and 15 | take 15 add 0 B 300 1250000\n\
        gap from 0 | gap 0\n\
        gap from 11 | gap 11\n\
        gap from 12 | gap 12\n\
        gap from 15 | gap 15\n\
        gap from the largest number | gap 18446744073709551615\n\
        requests of two gaps | write 24\n\
        requests of two gaps, one byte too few | write 23\n",
    )
}

// Each line in turn.
pub fn lines(rt: &impl Print, table: &str) -> io::Result<()> {
    let mut owned = Owned::open(0, OpeningRule::Default);
    for line in table.lines() {
        step(rt, &mut owned, line.as_bytes())?;
    }
    Ok(())
}

// By the first letter: open, by default or strictly, fill, a packet, what is kept and applied, or a question.
fn step(rt: &impl Print, owned: &mut Owned, line: &[u8]) -> io::Result<()>
    requires { Ruled (held_by owned.old) }
    ensures { Ruled (held_by owned.new) }
{
    let n = (number(line, 1) % 4294967296) as u32;
    match rows::letter(line, 0) {
        b'o' => owned.reopen(n, OpeningRule::Default),
        b's' => owned.reopen(n, OpeningRule::Strict),
        b'f' => made::filled(owned, rows::letter(line, 2), (n % 1000) as u16),
        b't' | b'e' | b'd' | b'b' => took(rt, owned, n, line)?,
        b'k' | b'a' => keeping::step(rt, owned, n, line)?,
        _ => question(rt, owned, line)?,
    }
    Ok(())
}

// A packet taken, and its answer where the line has a label.
fn took(rt: &impl Print, owned: &mut Owned, n: u32, line: &[u8]) -> io::Result<()>
    requires { Ruled (held_by owned.old) }
    ensures { Ruled (held_by owned.new) }
{
    let answer = handed(owned, n, line);
    let label = rows::label(line);
    if !label.is_empty() {
        answers::taken(rt, label, owned, answer)?;
    }
    Ok(())
}

// By the first letter: take, empty, damage, beat.
fn handed(owned: &mut Owned, n: u32, line: &[u8]) -> Result<u64, Refusal>
    requires { Ruled (held_by owned.old) }
    ensures { Ruled (held_by owned.new) }
{
    match rows::letter(line, 0) {
        b't' => made::sent(owned, n, told(line, 2), told(line, 7)),
        b'e' => made::empty(owned, n, line),
        b'd' => damaged(owned, n, line),
        _ => made::beat(owned, n),
    }
}

// A place, a byte, and the message with that byte at that place of its packet.
fn damaged(owned: &mut Owned, seq: u32, line: &[u8]) -> Result<u64, Refusal>
    requires { Ruled (held_by owned.old) }
    ensures { Ruled (held_by owned.new) }
{
    let at = rows::place(line, 2);
    let byte = (number(line, 3) % 256) as u8;
    made::damaged(owned, seq, told(line, 4), at, byte)
}

// By the first letter: gap, write the requests, report, lowest, unlisted, code.
fn question(rt: &impl Print, owned: &Owned, line: &[u8]) -> io::Result<()>
    requires { Ruled (held_by owned.now) }
{
    put(rt, rows::label(line))?;
    match rows::letter(line, 0) {
        b'g' => gap(rt, owned, number(line, 1))?,
        b'w' => requests(rt, owned, rows::place(line, 1))?,
        b'r' => answers::report(rt, owned)?,
        b'l' => answers::lowest(rt, owned)?,
        b'u' => answers::unlisted(rt, owned)?,
        _ => answers::code(rt, owned)?,
    }
    println!(rt; "")
}

fn gap(rt: &impl Print, owned: &Owned, from: u64) -> io::Result<()>
    requires { Ruled (held_by owned.now) }
{
    let gap = asking::gap(&owned.room, &owned.window, from);
    print!(rt; ": {} {}", gap.start, gap.count)
}

// The requests written to the first `size` bytes of a buffer of 0xEE.
fn requests(rt: &impl Print, owned: &Owned, size: usize) -> io::Result<()>
    requires { Ruled (held_by owned.now) }
{
    print!(rt; ": ")?;
    let mut buf = [0xEEu8; 24];
    if size <= 24 {
        match asking::requests(&owned.room, &owned.window, &mut buf[..size]) {
            Ok(count) => print!(rt; "wrote {count}")?,
            Err(refused) => refusal(rt, refused)?,
        }
    }
    bytes(rt, &buf)
}
