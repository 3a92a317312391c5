// One message, read into numbers and written from them.
ghost use Rattle.std.specs.Prelude.{◌≡◌, [], ◌∷◌, false, ◌≤◌, length};
ghost use Rattle.wire.specs.Number.{splice};
ghost use Rattle.message.specs.Layouts.{layout_of, type_in};
ghost use Rattle.message.specs.Reading.{read_of};
ghost use Rattle.single.specs.Over.{over, over_from};
ghost use Rattle.single.specs.Given.{bytes_from, given_buffer, given_of, message_if, wide_from};
ghost use Rattle.refusals.specs.Refusals.{refusal_in};
ghost use Rattle.single.specs.Told.{number_told};
ghost use Rattle.single.specs.Words.{counts, message_told, widths_of, words_at, Laid};

use crate::telling;
use crate::words::{Width, number_at, put_number, too_wide, words_of};
use message::Message;
use refusals::Refusal;

fn tell_fields(s: &[u8], words: &[Width], told: &mut [u64; 14])
    requires { Laid (counts words.now) (length s.now) }
    ensures { told.new ≡ over_from 1 (words_at (counts words.now) 3 s.now) told.old }
{
    let mut at = 3;
    for (k, &width) in words.iter().enumerate() {
        told[k + 1] = number_at(s, at, width);
        at += width.bytes();
    }
}

// The type and the fields of whole bytes.
fn tell(s: &[u8], told: &mut [u64; 14])
    requires { Laid (widths_of (layout_of (type_in s.now))) (length s.now) }
    ensures { told.new ≡ over (type_in s.now ∷ words_at (widths_of (layout_of (type_in s.now))) 3 s.now) told.old }
{
    let kind = wire::number_at::<u8>(s, 2);
    told[0] = kind as u64;
    tell_fields(s, words_of(kind), told);
}

// The message that the bytes are: its type, then its fields in their order; of 28 and unlisted types the type alone.
pub fn read(bytes: &[u8], told: &mut [u64; 14]) -> u64
    ensures refusal { result ≡ refusal_in (read_of bytes.now) }
    ensures told { told.new ≡ message_told (read_of bytes.now) told.old }
{
    match message_read::read(bytes) {
        Ok(_) => {
            tell(bytes, told);
            0
        }
        Err(refusal) => refusal.number() as u64,
    }
}

// A yes or a no, and no refusal yet: `given` makes that of it.
// The fields put behind a message's header; true where a number does not fit in its field.
fn fill(numbers: &[u64; 14], words: &[Width], bytes: &mut [u8]) -> bool
    requires { Laid (counts words.now) (length bytes.old) }
    ensures wide { result ≡ wide_from (counts words.now) 1 numbers.now }
    ensures bytes { result ≡ false → bytes.new ≡ splice bytes.old 3 (bytes_from (counts words.now) 1 numbers.now) }
{
    let mut at = 3;
    for (k, &width) in words.iter().enumerate() {
        let n = numbers[k + 1];
        if too_wide(width, n) {
            return true;
        }
        put_number(bytes, at, width, n);
        at += width.bytes();
    }
    false
}

// The message of such numbers. A number that does not fit in its field makes none.
fn given(numbers: &[u64; 14]) -> Result<Message, Refusal>
    ensures { result ≡ message_if numbers.now }
{
    let first = numbers[0];
    if 256 <= first {
        return Err(Refusal::RuleBroken);
    }
    let kind = first as u8;
    let mut bytes = [0u8; 55];
    if fill(numbers, words_of(kind), &mut bytes) {
        return Err(Refusal::RuleBroken);
    }
    Ok(message_read::parts::fields(&bytes, kind))
}

// The message of such numbers, at a place in a buffer; told is how many bytes it has.
pub fn write(numbers: &[u64; 14], buf: &mut [u8], at: usize, told: &mut [u64; 1]) -> u64
    ensures refusal { result ≡ refusal_in (given_of numbers.now buf.old at) }
    ensures buffer { buf.new ≡ given_buffer numbers.now buf.old at }
    ensures told { told.new ≡ number_told (given_of numbers.now buf.old at) told.old }
{
    match given(numbers) {
        Ok(message) => {
            let written = message_write::write(message, buf, at);
            telling::tell(told, written.map(telling::count))
        }
        Err(refusal) => refusal.number() as u64,
    }
}
