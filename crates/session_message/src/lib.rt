// Parts: the message at next, from where it lies. That is the packet at hand, while messages of it are
// left that are applied straight from it, and otherwise its place in the window, while some that wait are due.
#![tactic(auto)]

ghost use Rattle.std.specs.Prelude.{◌≡◌, ◌<◌, ◌≤◌, length};
ghost use Rattle.window.specs.Window.{size_at, some_size};
ghost use Rattle.session_message.specs.AtNext.{due_size, size_in, text_after, window_after, onward_of, message_at, Begins, Goes, Lies};

use window::places;
use window::places::{PLACE, Window};

// What is left to apply: how many messages straight from the packet at hand, and where the first of them
// begins in the lent bytes; where none is left there, how many of those that wait are due.
// Two numbers and no enum, which would be no plainer: what the engine keeps is said of both at once (window_taking's Ahead).
#[derive(Clone, Copy)]
pub struct PacketRest {
    pub left: usize,
    pub from: usize,
}

// The size of what waits at a place, where one more is due.
fn size_due(window: &Window, place: usize, due: usize) -> Option<usize>
    requires { place < 256 }
    ensures { result ≡ some_size (due_size due (size_at window.now place)) }
{
    if due == 0 {
        return None;
    }
    places::size_at(window, place)
}

// The size of the message at next, if there is one and it is due.
pub fn size(window: &Window, s: &[u8], rest: PacketRest, place: usize) -> Option<usize>
    requires place_bound { place < 256 }
    requires begins { Begins s.now rest }
    ensures { result ≡ some_size (size_in window.now s.now rest place) }
{
    if rest.left == 0 {
        return size_due(window, place, rest.from);
    }
    places::some_size(wire::number_at::<u16>(s, rest.from) as usize)
}

// What stands at a place of the window copied into `text`, before the place is made free.
pub fn fetch(text: &mut [u8; PLACE], window: &Window, rest: PacketRest, place: usize)
    requires { place < 256 }
    ensures { text.new ≡ text_after window.now text.old rest place }
{
    if rest.left != 0 {
        return;
    }
    *text = wire::text_at(window, place * PLACE);
}

pub fn free(window: &mut Window, rest: PacketRest, place: usize)
    requires { place < 256 }
    ensures { window.new ≡ window_after window.old rest place }
{
    if rest.left == 0 {
        places::clear(window, place);
    }
}

// Past a message of this size.
pub fn onward(rest: PacketRest, size: usize) -> PacketRest
    requires { Goes rest size }
    ensures { result ≡ onward_of rest size }
{
    if rest.left == 0 {
        return PacketRest {
            left: 0,
            from: rest.from - 1,
        };
    }
    let left = rest.left - 1;
    let from = rest.from + size;
    PacketRest { left, from }
}

// The message: what was copied out, or a part of the packet.
pub fn message<'a>(text: &'a [u8], s: &'a [u8], rest: PacketRest, size: usize) -> &'a [u8]
    requires size_in_bounds { size ≤ length text.now }
    requires lies { Lies s.now rest size }
    ensures { result.now ≡ message_at text.now s.now rest size }
{
    if rest.left == 0 {
        return &text[..size];
    }
    let from = rest.from;
    let stop = from + size;
    &s[from..stop]
}
