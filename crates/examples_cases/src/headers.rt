// Headers: each test of 1 to 6 alone, at both ends of its range, and with a later one.
ghost use Rattle.std.specs.Prelude.{◌≤◌, length};

use crate::rows;
use crate::rows::number;
use printing::answers;
use printing::words::label;
use std::io;

// A header of these fields, PacketSize, SeqNum, PacketFlag and Messages, in so many lent bytes, the rest zero.
fn case(rt: &impl Print, line: &[u8]) -> io::Result<()> {
    let mut packet = [0u8; 2048];
    put_front(&mut packet, line);
    let length = rows::place(line, 4);
    if length <= 2048 {
        label(rt, rows::label(line))?;
        answers::header(rt, packet::read_header(&packet[..length]))?;
    }
    Ok(())
}

// The first bytes of a header of these fields.
pub fn put_front(packet: &mut [u8], line: &[u8])
    requires { 8 ≤ length packet.old }
{
    wire::put_number(packet, 0, (number(line, 0) % 65536) as u16);
    wire::put_number(packet, 2, (number(line, 1) % 4294967296) as u32);
    wire::put_number(packet, 6, (number(line, 2) % 256) as u8);
    wire::put_number(packet, 7, (number(line, 3) % 256) as u8);
}

pub fn run(rt: &impl Print) -> io::Result<()> {
    cases(
        rt,
        "header, no byte lent | 12 1 1 0 0\n\
        header, 11 bytes lent | 11 1 1 0 11\n\
        header, 11 bytes lent, a reserved bit too | 11 1 2 0 11\n\
        header, 12 bytes lent | 12 1 1 0 12\n\
        header, 1,472 bytes lent | 1472 1 0 1 1472\n\
        header, 1,473 bytes lent | 1473 1 0 1 1473\n\
        header, 2,048 bytes lent, PacketSize 12 | 12 1 0 1 2048\n\
        header, PacketSize one less | 12 1 0 1 13\n\
        header, PacketSize one more | 14 1 0 1 13\n\
        header, PacketSize 0 | 0 1 0 1 12\n\
        header, PacketSize 65,535 | 65535 1 0 1 1472\n\
        header, PacketSize wrong, a reserved bit too | 13 1 2 1 12\n",
    )?;
    cases(
        rt,
        "header, bit 1 set | 13 7 2 1 13\n\
        header, bit 7 set | 13 7 128 1 13\n\
        header, every bit set | 12 7 255 0 12\n\
        header, bit 1 set and Messages 0 | 13 7 2 0 13\n\
        heartbeat | 12 7 1 0 12\n\
        heartbeat, SeqNum 0 | 12 0 1 0 12\n\
        heartbeat, SeqNum 4,294,967,295 | 12 4294967295 1 0 12\n\
        heartbeat, Messages 1 | 12 7 1 1 12\n\
        heartbeat of 13 bytes | 13 7 1 0 13\n\
        heartbeat of 13 bytes, Messages 255 | 13 7 1 255 13\n\
        no heartbeat, Messages 0 | 13 7 0 0 13\n\
        no heartbeat of 12 bytes, Messages 0 | 12 7 0 0 12\n\
        no heartbeat, Messages 255 | 13 7 0 255 13\n",
    )
}

// `messages` has its like: what would be handed to one function, a case, is all that the two are.
fn cases(rt: &impl Print, table: &str) -> io::Result<()> {
    for line in table.lines() {
        case(rt, line.as_bytes())?;
    }
    Ok(())
}
