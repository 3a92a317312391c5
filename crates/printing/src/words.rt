// Parts: bytes as they are, in hex and between quotes.
use std::io;
use text::{hex, output};

// How a message's texts are printed.
#[derive(Clone, Copy)]
pub enum Texts {
    Quoted,
    Hex,
}

impl Texts {
    pub fn put(self, rt: &impl Print, text: &[u8]) -> io::Result<()> {
        match self {
            Texts::Quoted => quoted(rt, text),
            Texts::Hex => bytes(rt, text),
        }
    }
}

pub fn put(rt: &impl Print, text: &[u8]) -> io::Result<()> {
    rt.write_all(text)
}

// A label and what stands before its answer.
pub fn label(rt: &impl Print, label: &[u8]) -> io::Result<()> {
    put(rt, label)?;
    print!(rt; ": ")
}

// Bytes in hex behind a space, `-` for none: 2,048 of them at most.
pub fn bytes(rt: &impl Print, s: &[u8]) -> io::Result<()> {
    put(rt, b" ")?;
    let mut out = [0u8; 4096];
    let end = hex::put(&mut out, 0, s);
    output::write(rt, &out, end)?;
    Ok(())
}

// A text between quotes behind a space: its padding shows.
pub fn quoted(rt: &impl Print, text: &[u8]) -> io::Result<()> {
    put(rt, b" \"")?;
    put(rt, text)?;
    put(rt, b"\"")
}
