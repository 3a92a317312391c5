// The command that walks a packet with no session: walk.
use crate::reads::{LENT, bad, bytes_of};
use printing::answers::refused;
use std::io;
use text::words::word;

pub fn walk(rt: &impl Print, line: &[u8]) -> io::Result<()> {
    let mut lent = [0u8; LENT];
    let Some(packet) = bytes_of(word(line, 1), &mut lent) else {
        return bad(rt);
    };
    walk_in(rt, packet)
}

// A packet has at most 255 messages; a number behind the last one has no frame.
fn walk_in(rt: &impl Print, packet: &[u8]) -> io::Result<()> {
    if let Err(refusal) = packet_reader::judge::judge(packet) {
        return refused(rt, refusal);
    }
    print!(rt; "walk")?;
    for k in 0..255 {
        let Some(found) = packet_reader::frame_of(packet, k) else {
            break;
        };
        print!(rt; " {}:{}", found.start, found.size)?;
    }
    println!(rt; "")
}
