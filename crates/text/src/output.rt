// Parts: an answer built up in a lent buffer.
ghost use Rattle.std.specs.Prelude.{◌≡◌, IfOk};
ghost use Rattle.text.specs.Output.{Put};

use std::io;

// The text put at a place, and the place behind it. Where it does not fit nothing is put, and the
// buffer counts as full: a caller lends enough, and needs no proof that it did.
pub fn put(out: &mut [u8], at: usize, text: &[u8]) -> usize
    ensures { Put out.old at text.now result out.new }
{
    let room = out.len();
    if room < at {
        return room;
    }
    if room - at < text.len() {
        return room;
    }
    wire::put_text(out, at, text);
    at + text.len()
}

// Writes the buffer's first bytes to standard output, and answers where the next text goes: the front.
pub fn write(rt: &impl Print, out: &[u8], end: usize) -> io::Result<usize>
    ensures { IfOk result (λ at. at ≡ 0) }
{
    if end <= out.len() {
        rt.write_all(&out[0..end])?;
    }
    Ok(0)
}
