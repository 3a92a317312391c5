// Parts: a cursor in a packet. Each function takes the packet and the cursor, and answers for any cursor.
ghost use Rattle.std.specs.Prelude.{◌≡◌, ◌+◌, ◌<◌, ◌^◌};
ghost use Rattle.packet.specs.Walk.{some_size};
ghost use Rattle.packet_reader.specs.Cursors.{behind_of, frame_at, framed, lent_if, part_if, size_at, start_of};

use crate::judge::judge;
use refusals::Refusal;

// Where the next message starts, how many are left, and which of 1 to 7 refused the packet.
#[derive(Clone, Copy, Debug, PartialEq, Eq)]
pub struct Cursor {
    pub at: usize,
    pub left: u8,
    pub refusal: Option<Refusal>,
}

// A message: where it starts, and how many bytes it has.
#[derive(Clone, Copy, Debug, PartialEq, Eq)]
pub struct Frame {
    pub start: usize,
    pub size: usize,
}

// The cursor of a packet that is opened.
pub fn start(s: &[u8]) -> Cursor
    ensures { result ≡ start_of s.now }
{
    match judge(s) {
        Err(refusal) => Cursor {
            at: 0,
            left: 0,
            refusal: Some(refusal),
        },
        Ok(()) => Cursor {
            at: packet::HEADER,
            left: wire::number_at(s, 7),
            refusal: None,
        },
    }
}

// The size of the message at a cursor. The walk looks again at what opening judged: a cursor may be any.
fn size_at(s: &[u8], cursor: Cursor) -> Option<usize>
    ensures { result ≡ some_size (size_at s.now cursor) }
{
    let at = cursor.at;
    if cursor.left == 0 {
        return None;
    }
    if s.len() < at {
        return None;
    }
    packet_judge::walk::step(s, at)
}

// The message at a cursor, if one is left.
pub fn frame_at(s: &[u8], cursor: Cursor) -> Option<Frame>
    ensures { result ≡ framed (frame_at s.now cursor) }
{
    let size = size_at(s, cursor)?;
    Some(Frame {
        start: cursor.at,
        size,
    })
}

// Where a message ends.
fn end_of(found: Frame) -> usize
    requires { found.start + found.size < 2 ^ 64 }
    ensures { result ≡ found.start + found.size }
{
    found.start + found.size
}

// The message at a cursor as a part of the packet, if one is left.
pub fn part(s: &[u8], cursor: Cursor) -> Option<&[u8]>
    ensures { lent_if result ≡ part_if s.entry (frame_at s.now cursor) }
{
    let found = frame_at(s, cursor)?;
    let start = found.start;
    let end = end_of(found);
    Some(&s[start..end])
}

// The cursor behind that message. Where none is left it stays.
pub fn behind(s: &[u8], cursor: Cursor) -> Cursor
    ensures { result ≡ behind_of s.now cursor }
{
    let Some(found) = frame_at(s, cursor) else {
        return cursor;
    };
    let at = end_of(found);
    Cursor {
        at,
        left: cursor.left - 1,
        refusal: cursor.refusal,
    }
}
