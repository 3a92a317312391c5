// The commands that keep packets and apply what waits: the taking of a packet in its two halves.
ghost use Rattle.session.specs.Meaning.{Ruled};
ghost use Rattle.session_owned.specs.Holding.{held_by};

use crate::made::told;
use crate::{answers, made};
use examples_cases::rows;
use examples_cases::rows::number;
use message::Message;
use session_owned::Owned;
use std::io;

// By the first letter: apply, keep.
pub fn step(rt: &impl Print, owned: &mut Owned, n: u32, line: &[u8]) -> io::Result<()>
    requires { Ruled (held_by owned.old) }
    ensures { Ruled (held_by owned.new) }
{
    match rows::letter(line, 0) {
        b'a' => applied(rt, owned, line),
        _ => kept(rt, owned, n, line),
    }
}

// Up to a count of what waits applied, and the answer where the line has a label.
fn applied(rt: &impl Print, owned: &mut Owned, line: &[u8]) -> io::Result<()>
    requires { Ruled (held_by owned.old) }
    ensures { Ruled (held_by owned.new) }
{
    let count = owned.apply(number(line, 1));
    let label = rows::label(line);
    if !label.is_empty() {
        answers::applied(rt, label, owned, count)?;
    }
    Ok(())
}

// A heartbeat, or one message or two.
fn kept(rt: &impl Print, owned: &mut Owned, n: u32, line: &[u8]) -> io::Result<()>
    requires { Ruled (held_by owned.old) }
    ensures { Ruled (held_by owned.new) }
{
    let label = rows::label(line);
    if rows::letter(line, 2) == b'b' {
        beat(rt, owned, n, label)
    } else {
        sent(rt, owned, n, told(line, 2), told(line, 7), label)
    }
}

fn beat(rt: &impl Print, owned: &mut Owned, seq: u32, label: &[u8]) -> io::Result<()>
    requires { Ruled (held_by owned.old) }
    ensures { Ruled (held_by owned.new) }
{
    let mut buf = [0u8; 12];
    made::head(&mut buf, 12, seq, 1, 0);
    handed(rt, owned, &buf, label)
}

fn sent(
    rt: &impl Print,
    owned: &mut Owned,
    seq: u32,
    first: Message,
    second: Message,
    label: &[u8],
) -> io::Result<()>
    requires { Ruled (held_by owned.old) }
    ensures { Ruled (held_by owned.new) }
{
    let mut buf = [0u8; 256];
    let size = made::packet_of(&mut buf, seq, first, second);
    handed(rt, owned, &buf[..size], label)
}

// A packet kept beside the tables, which stay, and the answer where there is a label.
fn handed(rt: &impl Print, owned: &mut Owned, packet: &[u8], label: &[u8]) -> io::Result<()>
    requires { Ruled (held_by owned.old) }
    ensures { Ruled (held_by owned.new) }
{
    let said = owned.keep(packet);
    if !label.is_empty() {
        answers::kept(rt, label, owned, said)?;
    }
    Ok(())
}
