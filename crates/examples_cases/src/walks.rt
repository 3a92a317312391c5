// Packets walked without a session: each message as a part of the packet, and two steps behind the last;
// then the same by a reader.
use crate::headers::put_front;
use crate::rows;
use packet_reader::{cursor, judge, plain};
use printing::words::{bytes, put};
use refusals::Refusal;
use std::io;

pub fn run(rt: &impl Print) -> io::Result<()> {
    let walks = "walk of 3 messages | 24 7 0 3 24\n\
        walk of 3 messages, the last number past the end | 24 4294967295 0 3 24\n\
        walk of 3 messages, Messages 4 | 24 4294967295 0 4 24\n\
        walk of 3 messages, Messages 2 | 24 4294967295 0 2 24\n\
        walk of a heartbeat | 12 7 1 0 12\n\
        walk of no byte | 12 7 1 0 0\n";
    for line in walks.lines() {
        case(rt, line.as_bytes())?;
    }
    Ok(())
}

// Messages of 3, 5 and 4 bytes, of the types 28, 100 and 28, behind a header of these fields, PacketSize,
// SeqNum, PacketFlag and Messages, of which so many bytes are lent.
fn case(rt: &impl Print, line: &[u8]) -> io::Result<()> {
    let mut packet =
        *b"\x00\x00\x00\x00\x00\x00\x00\x00\x00\x00\x00\x00\x00\x03\x1C\x00\x05d\x01\x02\x00\x04\x1C\x09";
    put_front(&mut packet, line);
    let length = rows::place(line, 4);
    if length <= 24 {
        both(rt, rows::label(line), &packet[..length])?;
    }
    Ok(())
}

fn both(rt: &impl Print, label: &[u8], s: &[u8]) -> io::Result<()> {
    put(rt, label)?;
    walked(rt, s)?;
    print!(rt; "\n  by a reader")?;
    read(rt, s)?;
    println!(rt; "")
}

fn judged(rt: &impl Print, refusal: Option<Refusal>) -> io::Result<()> {
    print!(rt;
        ": judged {}",
        refusal.map_or(0, |refusal| refusal.number())
    )
}

fn walked(rt: &impl Print, s: &[u8]) -> io::Result<()> {
    judged(rt, judge::judge(s).err())?;
    let mut at = cursor::start(s);
    for k in 0..5 {
        part(rt, cursor::part(s, at))?;
        numbered(rt, s, k)?;
        at = cursor::behind(s, at);
    }
    Ok(())
}

fn part(rt: &impl Print, message: Option<&[u8]>) -> io::Result<()> {
    print!(rt; ",")?;
    match message {
        Some(message) => bytes(rt, message),
        None => print!(rt; " none"),
    }
}

// The same message by its number: where it starts, and as many bytes.
fn numbered(rt: &impl Print, s: &[u8], k: u8) -> io::Result<()> {
    let Some(found) = packet_reader::frame_of(s, k) else {
        return Ok(());
    };
    let Some(message) = packet_reader::message_of(s, k) else {
        return Ok(());
    };
    placed(rt, found.start, message.len())
}

fn placed(rt: &impl Print, start: usize, size: usize) -> io::Result<()> {
    print!(rt; " at {start} of {size}")
}

// The same by a reader that is opened, asked and stepped: where it stands, and how far a step goes.
fn read(rt: &impl Print, s: &[u8]) -> io::Result<()> {
    judged(rt, plain::refused(s))?;
    let mut at = plain::opened(s);
    for _ in 0..5 {
        let next = plain::stepped(s, at);
        passed(rt, at.at, next.at)?;
        at = next;
    }
    Ok(())
}

fn passed(rt: &impl Print, from: usize, to: usize) -> io::Result<()> {
    print!(rt; ",")?;
    if to <= from {
        return print!(rt; " none");
    }
    placed(rt, from, to - from)
}
