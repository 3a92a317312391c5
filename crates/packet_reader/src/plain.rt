// A reader opened, asked and stepped, for a caller that holds no reader: it keeps the packet and the cursor.
// Each is one step by `open`, `refusal` or `step`: plain parameters are what such a caller has.
ghost use Rattle.std.specs.Prelude.{◌≡◌};
ghost use Rattle.packet_reader.specs.Cursors.{behind_of, start_of};
ghost use Rattle.packet_reader.specs.Reading.{refusal_of};
ghost use Rattle.refusals.specs.Refusals.{refusal_or_none};

use crate::cursor::Cursor;
use crate::read::{Reader, open, refusal, step};
use refusals::Refusal;

// The cursor of a reader that is opened.
pub fn opened(packet: &[u8]) -> Cursor
    ensures { result ≡ start_of packet.now }
{
    open(packet).cursor
}

// Which of 1 to 7 such a reader says.
pub fn refused(packet: &[u8]) -> Option<Refusal>
    ensures { refusal_or_none result ≡ refusal_of packet.now }
{
    refusal(open(packet))
}

// The cursor of the reader behind a step.
pub fn stepped(packet: &[u8], cursor: Cursor) -> Cursor
    ensures { result ≡ behind_of packet.now cursor }
{
    step(Reader { packet, cursor }).rest.cursor
}
