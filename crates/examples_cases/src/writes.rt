// Writing: each type at a place in a buffer of 0xEE, the buffer whole, and the message read back.
use crate::rows::number;
use crate::{rows, samples};
use packet::Header;
use printing::answers;
use printing::answers::written;
use printing::words::{Texts, bytes, label};
use std::io;

pub fn run(rt: &impl Print) -> io::Result<()> {
    messages(rt)?;
    headers(rt)
}

// A good message of a type written at a place in the first bytes of a buffer: type, room and place.
fn case(rt: &impl Print, line: &[u8]) -> io::Result<()> {
    label(rt, rows::label(line))?;
    let good = samples::of_type(number(line, 0));
    let at = rows::place(line, 2);
    let mut buffer = [0xEEu8; 64];
    write(rt, good, &mut buffer, rows::place(line, 1), at)?;
    bytes(rt, &buffer)?;
    println!(rt; "")?;
    back(rt, &buffer, good.len(), at)
}

fn write(
    rt: &impl Print,
    good: &[u8],
    buffer: &mut [u8],
    room: usize,
    at: usize,
) -> io::Result<()> {
    if room <= buffer.len() {
        if let Ok(message) = message_read::read(good) {
            written(rt, message_write::write(message, &mut buffer[..room], at))?;
        }
    }
    Ok(())
}

// What reading says of as many bytes at that place.
fn back(rt: &impl Print, buffer: &[u8], size: usize, at: usize) -> io::Result<()> {
    if at <= buffer.len() {
        if size <= buffer.len() - at {
            let end = at + size;
            print!(rt; "  read back: ")?;
            answers::message(rt, message_read::read(&buffer[at..end]), Texts::Quoted)?;
        }
    }
    Ok(())
}

// A header of this size, flag and count of messages, written to the first bytes of a buffer.
fn header(rt: &impl Print, line: &[u8]) -> io::Result<()> {
    label(rt, rows::label(line))?;
    let mut buffer = [0xEEu8; 16];
    write_header(rt, header_of(line), &mut buffer, rows::place(line, 3))?;
    bytes(rt, &buffer)?;
    println!(rt; "")
}

fn header_of(line: &[u8]) -> Header {
    let size = (number(line, 0) % 65536) as u16;
    let flag = (number(line, 1) % 256) as u8;
    let messages = (number(line, 2) % 256) as u8;
    Header {
        size,
        seq: 16909060,
        flag,
        messages,
        milli: 72000000,
    }
}

fn write_header(rt: &impl Print, header: Header, buffer: &mut [u8], room: usize) -> io::Result<()> {
    if room <= buffer.len() {
        written(rt, packet::write_header(header, &mut buffer[..room]))?;
    }
    Ok(())
}

// Type, room and place.
fn messages(rt: &impl Print) -> io::Result<()> {
    let writes = "write Security | 9 64 3\n\
        write Start of Spin | 11 64 3\n\
        write End of Spin | 12 64 3\n\
        write Trading Session | 20 64 3\n\
        write Order Add | 21 64 3\n\
        write Order Update | 22 64 3\n\
        write Order Delete | 23 64 3\n\
        write Execution | 24 64 3\n\
        write Execution with Price | 25 64 3\n\
        write Top of Book | 26 64 3\n\
        write Trade | 27 64 3\n\
        write Order Delete, exact room | 23 24 3\n\
        write Order Delete, one byte too few | 23 23 3\n\
        write Order Delete behind the end | 23 24 25\n\
        write Order Delete at the largest place | 23 24 18446744073709551615\n\
        write Imbalance | 28 64 0\n\
        write Imbalance behind the end | 28 0 1\n";
    for line in writes.lines() {
        case(rt, line.as_bytes())?;
    }
    Ok(())
}

fn headers(rt: &impl Print) -> io::Result<()> {
    let writes = "write header | 67 0 1 16\n\
        write header of a heartbeat | 12 1 0 12\n\
        write header, 11 bytes of buffer | 12 1 0 11\n\
        write header, size 11 | 11 1 0 16\n\
        write header, size 1,473 | 1473 0 1 16\n\
        write header, a reserved bit | 67 2 1 16\n\
        write header, a heartbeat of 13 bytes | 13 1 0 16\n\
        write header, Messages 0, no buffer | 67 0 0 0\n";
    for line in writes.lines() {
        header(rt, line.as_bytes())?;
    }
    Ok(())
}
