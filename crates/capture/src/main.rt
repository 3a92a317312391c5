// Replays a capture on standard input: a line a packet, then the gaps.
#![tactic(auto)]

mod lines;

ghost use Rattle.std.specs.Prelude.{◌≤◌, length, IfOk};
ghost use Rattle.session.specs.Meaning.{Ruled};
ghost use Rattle.session_owned.specs.Holding.{held_by};
ghost use Rattle.capture.specs.Replays.{Strictly};

use book::tables::OpeningRule;
use lines::Lines;
use records::HEAD;
use session::asking;
use session_owned::Owned;
use std::io;
use text::input;

// How far the records went that were taken, and whether a record has no mark.
#[derive(Clone, Copy)]
struct Replayed {
    at: usize,
    unmarked: bool,
}

// Before the first record the session is opened at its number, by the strict rule: a capture shows each type that is not in
// the table as a fault.
fn open_at_first(owned: &mut Owned, bytes: &[u8])
    requires { Strictly (held_by owned.old) }
    ensures { Strictly (held_by owned.new) }
{
    if let Some(size) = records::size_at(bytes, 0) {
        let number = records::number_of(&bytes[HEAD..size]);
        owned.reopen(number, OpeningRule::Strict);
    }
}

// Takes each whole record among the bytes, and prints its line.
fn replay(rt: &impl Print, owned: &mut Owned, bytes: &[u8]) -> io::Result<Replayed>
    requires { Strictly (held_by owned.old) }
    ensures strict { Strictly (held_by owned.new) }
    ensures within { IfOk result (λ replayed. replayed.at ≤ length bytes.now) }
{
    let mut lines = Lines::new();
    let mut at: usize = 0;
    // Where a record ends is known once it is looked at.
    while let Some(size) = records::size_at(bytes, at) {
        let start = at + HEAD;
        at += size;
        let answer = owned.take(&bytes[start..at]);
        lines.make_room(rt)?;
        lines.packet(asking::next(&owned.room), asking::end(&owned.room), answer);
    }
    lines.write_out(rt)?;
    let unmarked = records::unmarked(bytes, at);
    Ok(Replayed { at, unmarked })
}

// A line for each run of missing numbers. 256 numbers have fewer runs than the loop has turns.
fn gaps(rt: &impl Print, owned: &Owned) -> io::Result<()>
    requires { Ruled (held_by owned.now) }
{
    let mut lines = Lines::new();
    let mut from: u64 = 0;
    for _ in 0..255 {
        let gap = asking::gap(&owned.room, &owned.window, from);
        if gap.count == 0 {
            break;
        }
        lines.make_room(rt)?;
        lines.gap(gap);
        from = gap.start.saturating_add(gap.count);
    }
    lines.write_out(rt)
}

fn finish(rt: &impl Print, owned: &Owned, cut: bool) -> io::Result<()>
    requires { Ruled (held_by owned.now) }
{
    if cut {
        println!(rt; "cut")?;
    }
    gaps(rt, owned)
}

// What is held lies between from and to, as `text::input::more` takes it (its clause, `More`). No contract of a read
// promises the input's end, so a count of turns, far above the reads of any run, is what the proof ends by.
fn main(rt: HostRuntime) -> io::Result<()> {
    println!(rt; "next end applied answer")?;
    let mut input = rt.stdin();
    let mut buf = [0u8; 131072];
    let mut owned = Owned::open(0, OpeningRule::Strict);
    let mut fresh = true;
    let mut from: usize = 0;
    let mut to: usize = 0;
    'reads: for _ in 0..u64::MAX {
        let got = input::more(&mut input, &mut buf, from, to)?;
        if got == 0 {
            return finish(&rt, &owned, from < to);
        }
        to = to - from + got;
        if fresh {
            open_at_first(&mut owned, &buf[..to]);
        }
        let replayed = replay(&rt, &mut owned, &buf[..to])?;
        from = replayed.at;
        fresh = fresh && from == 0;
        if replayed.unmarked {
            return finish(&rt, &owned, true);
        }
    }
    Ok(())
}
