// The commands that write into a buffer of 0xEE and need no session: rewrite, rehead. The answer is
// printed, then the buffer whole.
use crate::reads::{LENT, bad, bytes_of};
use message::Message;
use packet::Header;
use printing::answers::{refused, written};
use printing::words::bytes;
use std::io;
use text::number::parse;
use text::words::word;

// The most room that a line can ask for.
const ROOM: u64 = 2048;

pub fn rewrite(rt: &impl Print, line: &[u8]) -> io::Result<()> {
    let Some(at) = parse(word(line, 2), u64::MAX) else {
        return bad(rt);
    };
    let Some(room) = parse(word(line, 3), ROOM) else {
        return bad(rt);
    };
    let mut lent = [0u8; LENT];
    let Some(message) = bytes_of(word(line, 1), &mut lent) else {
        return bad(rt);
    };
    let mut buffer = [0xEEu8; 2048];
    let buffer = &mut buffer[..room as usize];
    match message_read::read(message) {
        Ok(message) => put_message(rt, message, at as usize, buffer),
        Err(refusal) => refused(rt, refusal),
    }
}

fn put_message(rt: &impl Print, message: Message, at: usize, buffer: &mut [u8]) -> io::Result<()> {
    written(rt, message_write::write(message, buffer, at))?;
    bytes(rt, buffer)?;
    println!(rt; "")
}

// The header's numbers, where each fits its field.
fn header_of(line: &[u8]) -> Option<Header> {
    Some(Header {
        size: parse(word(line, 1), 65535)? as u16,
        seq: parse(word(line, 2), 4294967295)? as u32,
        flag: parse(word(line, 3), 255)? as u8,
        messages: parse(word(line, 4), 255)? as u8,
        milli: parse(word(line, 5), 4294967295)? as u32,
    })
}

pub fn rehead(rt: &impl Print, line: &[u8]) -> io::Result<()> {
    let Some(header) = header_of(line) else {
        return bad(rt);
    };
    let Some(room) = parse(word(line, 6), ROOM) else {
        return bad(rt);
    };
    let mut buffer = [0xEEu8; 2048];
    put_header(rt, header, &mut buffer[..room as usize])
}

fn put_header(rt: &impl Print, header: Header, buffer: &mut [u8]) -> io::Result<()> {
    written(rt, packet::write_header(header, buffer))?;
    bytes(rt, buffer)?;
    println!(rt; "")
}
