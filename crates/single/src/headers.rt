// One header.
ghost use Rattle.std.specs.Prelude.{◌≡◌, length};
ghost use Rattle.packet.specs.Header.{header_of};
ghost use Rattle.packet.specs.Writing as heading;
ghost use Rattle.refusals.specs.Refusals.{refusal_in};
ghost use Rattle.single.specs.Told.{header_numbers, header_told, packed};

use crate::telling::tell;
use packet::Header;
use refusals::number_in;

fn numbers(header: Header) -> [u64; 5]
    ensures { result ≡ header_numbers header }
{
    [
        header.size as u64,
        header.seq as u64,
        header.flag as u64,
        header.messages as u64,
        header.milli as u64,
    ]
}

// The fields of a packet's header, in their order.
pub fn read(packet: &[u8], told: &mut [u64; 5]) -> u64
    ensures refusal { result ≡ refusal_in (header_of packet.now) }
    ensures told { told.new ≡ header_told (header_of packet.now) told.old }
{
    tell(told, packet::read_header(packet).map(numbers))
}

// A header into a buffer's first 12 bytes.
pub fn write(size: u16, seq: u32, flag: u8, messages: u8, milli: u32, buf: &mut [u8]) -> u64
    ensures refusal { result ≡ refusal_in (heading.answer_of (packed size seq flag messages milli) (length buf.old)) }
    ensures buffer { buf.new ≡ heading.buffer_after (packed size seq flag messages milli) buf.old }
{
    let header = Header {
        size,
        seq,
        flag,
        messages,
        milli,
    };
    let written = packet::write_header(header, buf);
    number_in(&written) as u64
}
