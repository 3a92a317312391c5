// The commands that read bytes and need no session: value, header, message.
ghost use Rattle.desk.specs.Commands.{TextOf};

use printing::answers;
use printing::words::Texts;
use std::io;
use text::hex;
use text::words::word;

// More bytes than a line's hex can stand for.
pub const LENT: usize = 4096;

// The answer to a line that is no command.
pub fn bad(rt: &impl Print) -> io::Result<()> {
    println!(rt; "bad")
}

// The bytes that a word stands for.
pub fn bytes_of<'a>(word: &[u8], lent: &'a mut [u8]) -> Option<&'a [u8]> {
    let count = hex::parse(word, lent)?;
    Some(&lent[..count])
}

// An id or a symbol, where a word is one.
pub fn text_of(word: &[u8]) -> Option<[u8; 14]>
    ensures { TextOf word.now result }
{
    let mut text = [0u8; 14];
    let count = hex::parse(word, &mut text).unwrap_or(0);
    if count == 14 { Some(text) } else { None }
}

pub fn value(rt: &impl Print, line: &[u8]) -> io::Result<()> {
    let Some(id) = text_of(word(line, 1)) else {
        return bad(rt);
    };
    answers::value(rt, fields::id::value(id))
}

pub fn header(rt: &impl Print, line: &[u8]) -> io::Result<()> {
    let mut lent = [0u8; LENT];
    let Some(packet) = bytes_of(word(line, 1), &mut lent) else {
        return bad(rt);
    };
    answers::header(rt, packet::read_header(packet))
}

pub fn message(rt: &impl Print, line: &[u8]) -> io::Result<()> {
    let mut lent = [0u8; LENT];
    let Some(message) = bytes_of(word(line, 1), &mut lent) else {
        return bad(rt);
    };
    answers::message(rt, message_read::read(message), Texts::Hex)
}
