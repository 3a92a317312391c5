// A reader: a lent packet, and how far into it one has come.
ghost use Rattle.std.specs.Prelude.{◌≡◌};
ghost use Rattle.std.specs.Iterator.{at_most};
ghost use Rattle.packet_reader.specs.Cursors.{lent_if};
ghost use Rattle.packet_reader.specs.Steps.{opened, seen, step_of};

use crate::cursor;
use crate::cursor::Cursor;
use refusals::Refusal;

// The lent packet and the cursor in it. `open` makes one; a reader made otherwise has its answers too.
#[derive(Clone, Copy)]
pub struct Reader<'a> {
    pub packet: &'a [u8],
    pub cursor: Cursor,
}

// The message handed out, if one is left, and the reader behind it.
#[derive(Clone, Copy)]
pub struct Handed<'a> {
    pub message: Option<&'a [u8]>,
    pub rest: Reader<'a>,
}

// The call: the packet is judged by 1 to 7. A refused one gives a reader with no message left.
pub fn open<'a>(packet: &'a [u8]) -> Reader<'a>
    ensures { result ≡ opened packet.entry }
{
    let cursor = cursor::start(packet);
    Reader { packet, cursor }
}

// The call: which of 1 to 7 refused the packet.
pub fn refusal<'a>(reader: Reader<'a>) -> Option<Refusal>
    ensures { result ≡ reader.entry.cursor.refusal }
{
    reader.cursor.refusal
}

// The call: the next message, if one is left, and the reader behind it.
pub fn step<'a>(reader: Reader<'a>) -> Handed<'a>
    ensures { seen result ≡ step_of reader.entry }
{
    let message = cursor::part(reader.packet, reader.cursor);
    let cursor = cursor::behind(reader.packet, reader.cursor);
    Handed {
        message,
        rest: Reader {
            packet: reader.packet,
            cursor,
        },
    }
}

// A reader hands out message after message.
impl<'a> Iterator for Reader<'a> {
    type Item = &'a [u8];

    ghost next_gives = { λ reader message behind. (lent_if message, behind) ≡ step_of reader };

    ghost remaining = { λ reader. at_most reader.cursor.left };

    fn next(&mut self) -> Option<&'a [u8]> {
        let handed = step(*self);
        *self = handed.rest;
        handed.message
    }
}
