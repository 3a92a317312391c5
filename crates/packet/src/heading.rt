// Writing a header into a buffer's first 12 bytes.
ghost use Rattle.std.specs.Prelude.{◌≡◌, ◌≤◌, length};
ghost use Rattle.wire.specs.Layout.{put_row};
ghost use Rattle.packet.specs.Header.{layout};
ghost use Rattle.packet.specs.Writing.{answer_of, buffer_after, row_of};

use crate::header::{BARE, FULL, HEADER, Header, flagged};
use refusals::Refusal;

// What writing answers for n bytes of buffer.
fn answer(header: Header, n: usize) -> Result<usize, Refusal>
    ensures { result ≡ answer_of header n }
{
    let size = header.size;
    if size < BARE {
        return Err(Refusal::RuleBroken);
    }
    if FULL < size {
        return Err(Refusal::RuleBroken);
    }
    let judged = flagged(size, header.flag, header.messages);
    if judged.is_err() {
        return Err(Refusal::RuleBroken);
    }
    if n < HEADER {
        return Err(Refusal::NoRoom);
    }
    Ok(HEADER)
}

fn put(header: Header, buf: &mut [u8])
    requires { 12 ≤ length buf.old }
    ensures { buf.new ≡ put_row layout (row_of header) buf.old 0 }
{
    wire::put_number(buf, 0, header.size);
    wire::put_number(buf, 2, header.seq);
    wire::put_number(buf, 6, header.flag);
    wire::put_number(buf, 7, header.messages);
    wire::put_number(buf, 8, header.milli);
}

// The call: every header and every buffer have their answer.
pub fn write_header(header: Header, buf: &mut [u8]) -> Result<usize, Refusal>
    ensures answer { result ≡ answer_of header (length buf.old) }
    ensures buffer { buf.new ≡ buffer_after header buf.old }
{
    let count = answer(header, buf.len())?;
    put(header, buf);
    Ok(count)
}
