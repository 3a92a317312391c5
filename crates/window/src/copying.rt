// Parts: a text put at a place. It goes by steps of a size that is known, which are moves: a copy of a length that is
// not known would be a call of memmove, and the exports call nothing from outside but to fill memory.
ghost use Rattle.std.specs.Prelude.{◌≡◌, ◌+◌, ◌≤◌, length};
ghost use Rattle.wire.specs.Number.{splice};

use wire::{put_text, text_at};

// N bytes at a time. The last N are put over some of those before them, so that none is left to be put by itself.
fn put_by<const N: usize>(buf: &mut [u8], at: usize, text: &[u8])
    requires some { 1 ≤ N }
    requires least { N ≤ length text.now }
    requires room { at + length text.now ≤ length buf.old }
    ensures { buf.new ≡ splice buf.old at text.now }
{
    let last = text.len() - N;
    let mut k = 0;
    while k < last {
        put_text(buf, at + k, &text_at::<N>(text, k));
        k += N;
    }
    put_text(buf, at + last, &text_at::<N>(text, last));
}

pub fn put(buf: &mut [u8], at: usize, text: &[u8])
    requires { at + length text.now ≤ length buf.old }
    ensures { buf.new ≡ splice buf.old at text.now }
{
    match text.len() {
        0 => {}
        1 => put_by::<1>(buf, at, text),
        2..=3 => put_by::<2>(buf, at, text),
        4..=7 => put_by::<4>(buf, at, text),
        8..=15 => put_by::<8>(buf, at, text),
        _ => put_by::<16>(buf, at, text),
    }
}
