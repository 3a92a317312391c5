// Parts: bytes in hex, two digits a byte, `-` for none.
ghost use Rattle.std.specs.Prelude.{◌≡◌, ◌+◌, ◌*◌, ◌≤◌, length};
ghost use Rattle.wire.specs.Number.{splice};
ghost use Rattle.text.specs.Hex.{glyph_of, hex_of, is_dash, spelt_of, two_of, Digit, Fills, Pair, Reads};
ghost use Rattle.text.specs.Output.{Put};

use crate::output;

// A digit's value, in either case.
#[tactic(auto, unfolding(crate::specs::Hex::digit_of))]
fn digit_of(c: u8) -> Option<u8>
    ensures { Digit c result }
{
    match c {
        b'0'..=b'9' => Some(c - b'0'),
        b'A'..=b'F' => Some(c - b'A' + 10),
        b'a'..=b'f' => Some(c - b'a' + 10),
        _ => None,
    }
}

// The byte of two digits.
#[tactic(auto, unfolding(crate::specs::Hex::pair_of))]
fn pair(high: u8, low: u8) -> Option<u8>
    ensures { Pair high low result }
{
    Some(digit_of(high)? * 16 + digit_of(low)?)
}

fn fill(word: &[u8], out: &mut [u8], count: usize) -> bool
    requires { (count * 2 ≡ length word.now) × (count ≤ length out.old) }
    ensures { Fills word.now count result out.new }
{
    for k in 0..count {
        let Some(byte) = pair(word[k * 2], word[k * 2 + 1]) else {
            return false;
        };
        out[k] = byte;
    }
    true
}

#[tactic(auto, unfolding(crate::specs::Hex::is_dash))]
fn is_dash(word: &[u8]) -> bool
    ensures { result ≡ is_dash word.now }
{
    matches!(word, [b'-'])
}

// The bytes of a word, put at the front of a buffer, and how many; none where the buffer is too short.
pub fn parse(word: &[u8], out: &mut [u8]) -> Option<usize>
    ensures { Reads word.now (length out.old) result out.new }
{
    if is_dash(word) {
        return Some(0);
    }
    let count = word.len() / 2;
    if count == 0 {
        return None;
    }
    if count * 2 != word.len() {
        return None;
    }
    if out.len() < count {
        return None;
    }
    if fill(word, out, count) {
        return Some(count);
    }
    None
}

fn glyph(digit: u8) -> u8
    requires { digit ≤ 15 }
    ensures { result ≡ glyph_of digit }
{
    if digit < 10 { 48 + digit } else { 87 + digit }
}

fn digits_of(byte: u8) -> [u8; 2]
    ensures { result ≡ two_of byte }
{
    [glyph(byte / 16), glyph(byte % 16)]
}

fn spell(out: &mut [u8], at: usize, bytes: &[u8])
    requires { at + length bytes.now * 2 ≤ length out.old }
    ensures { out.new ≡ splice out.old at (spelt_of bytes.now) }
{
    for (k, byte) in bytes.iter().enumerate() {
        wire::put_text(out, at + k * 2, &digits_of(*byte));
    }
}

// The bytes in lower-case hex, or `-`, put at a place, and the place behind them.
pub fn put(out: &mut [u8], at: usize, bytes: &[u8]) -> usize
    ensures { Put out.old at (hex_of bytes.now) result out.new }
{
    if bytes.is_empty() {
        return output::put(out, at, b"-");
    }
    let room = out.len();
    if room < at {
        return room;
    }
    if (room - at) / 2 < bytes.len() {
        return room;
    }
    spell(out, at, bytes);
    at + bytes.len() * 2
}
