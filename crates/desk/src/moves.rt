// The commands that change the session: open, take, keep, apply.
ghost use Rattle.session.specs.Meaning.{Ruled};
ghost use Rattle.session_owned.specs.Holding.{held_by};

use crate::reads::{LENT, bad, bytes_of};
use book::tables::OpeningRule;
use printing::answers::refused;
use session_owned::Owned;
use std::io;
use text::number::parse;
use text::words::word;

pub fn open(rt: &impl Print, owned: &mut Owned, line: &[u8]) -> io::Result<()>
    requires { Ruled (held_by owned.old) }
    ensures { Ruled (held_by owned.new) }
{
    open_by(rt, owned, line, OpeningRule::Default)
}

// The one rule that is named is the strict one.
pub fn open_strict(rt: &impl Print, owned: &mut Owned, line: &[u8]) -> io::Result<()>
    requires { Ruled (held_by owned.old) }
    ensures { Ruled (held_by owned.new) }
{
    match word(line, 2) {
        b"strict" => open_by(rt, owned, line, OpeningRule::Strict),
        _ => bad(rt),
    }
}

fn open_by(rt: &impl Print, owned: &mut Owned, line: &[u8], rule: OpeningRule) -> io::Result<()>
    requires { Ruled (held_by owned.old) }
    ensures { Ruled (held_by owned.new) }
{
    let Some(first) = parse(word(line, 1), 4294967295) else {
        return bad(rt);
    };
    println!(rt; "ok")?;
    owned.reopen(first as u32, rule);
    Ok(())
}

pub fn take(rt: &impl Print, owned: &mut Owned, line: &[u8]) -> io::Result<()>
    requires { Ruled (held_by owned.old) }
    ensures { Ruled (held_by owned.new) }
{
    let mut lent = [0u8; LENT];
    let Some(packet) = bytes_of(word(line, 1), &mut lent) else {
        return bad(rt);
    };
    match owned.take(packet) {
        Ok(count) => println!(rt; "ok {count}"),
        Err(refusal) => refused(rt, refusal),
    }
}

pub fn keep(rt: &impl Print, owned: &mut Owned, line: &[u8]) -> io::Result<()>
    requires { Ruled (held_by owned.old) }
    ensures { Ruled (held_by owned.new) }
{
    let mut lent = [0u8; LENT];
    let Some(packet) = bytes_of(word(line, 1), &mut lent) else {
        return bad(rt);
    };
    match owned.keep(packet) {
        Ok(count) => println!(rt; "kept {count}"),
        Err(refusal) => refused(rt, refusal),
    }
}

pub fn apply(rt: &impl Print, owned: &mut Owned, line: &[u8]) -> io::Result<()>
    requires { Ruled (held_by owned.old) }
    ensures { Ruled (held_by owned.new) }
{
    let Some(count) = parse(word(line, 1), u64::MAX) else {
        return bad(rt);
    };
    let applied = owned.apply(count);
    println!(rt; "applied {applied}")
}
