// A message of a packet by its number in it, the first being 0.
ghost use Rattle.std.specs.Prelude.{◌≡◌};
ghost use Rattle.packet_reader.specs.Cursors.{after_of, framed, lent_if, part_if, start_of};
ghost use Rattle.packet_reader.specs.Reading.{message_of};

use crate::cursor;
use crate::cursor::{Cursor, Frame};

// The cursor with i messages before it.
fn cursor_of(s: &[u8], i: u8) -> Cursor
    ensures { result ≡ after_of i s.now (start_of s.now) }
{
    let mut at = cursor::start(s);
    for _ in 0..i {
        at = cursor::behind(s, at);
    }
    at
}

// The call: where message i starts, and how many bytes it has; none where the packet is refused or has no message i.
pub fn frame_of(s: &[u8], i: u8) -> Option<Frame>
    ensures { result ≡ framed (message_of s.now i) }
{
    let at = cursor_of(s, i);
    cursor::frame_at(s, at)
}

// The call: message i as a part of the packet, if there is one.
pub fn message_of(s: &[u8], i: u8) -> Option<&[u8]>
    ensures { lent_if result ≡ part_if s.entry (message_of s.now i) }
{
    let at = cursor_of(s, i);
    cursor::part(s, at)
}
