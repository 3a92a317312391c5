// Parts: an id's number, for the crates above. Four characters are read at a time, side by side in one number.
ghost use Rattle.std.specs.Prelude.{◌≡◌, ◌≤◌, ◌==◌, bit_and};
ghost use Rattle.fields.specs.Tests.{first_all};
ghost use Rattle.fields.specs.Id.{number_of, is_digit, is_value};
ghost use Rattle.fields.specs.Four.{chars_of, digits_of, four_from, four_of, Begun};

use std::num::{wrapping_add_u32, wrapping_sub_u32};

// A number and no `Option`: it is the key that the rooms of sessions hold and that contracts speak of as `number_of`.
// One above the largest value of twelve characters: no id has it.
pub const NONE: u64 = 4_738_381_338_321_616_896;

// How many values four characters have.
const FOURS: u64 = 1_679_616;

// 1 in each of four bytes.
const ONES: u32 = 0x0101_0101;

// Of an id's number, its value or NONE, whether the id keeps its rule.
pub fn is_value(number: u64) -> bool
    ensures { result ≡ is_value number }
{
    number != NONE
}

// An id's value, or NONE where it breaks its rule.
pub fn number(id: [u8; 14]) -> u64
    ensures { result ≡ number_of id }
{
    number_from(&id, 12, 0, 0)
}

// The same where all but the last `left` of its 12 characters are read and give `sofar`; `missed` is 0 if they are digits, which
// is looked at once, behind the last.
fn number_from(id: &[u8; 14], left: usize, sofar: u64, missed: u32) -> u64
    requires { Begun id.now left sofar missed }
    ensures { result ≡ number_of id.now }
{
    if left == 0 {
        if missed == 0 {
            return sofar;
        }
        return NONE;
    }
    let text = four_at(id, 12 - left);
    let digits = digits(text);
    let value = four(digits);
    let misses = misses(text, digits);
    number_from(id, left - 4, sofar * FOURS + value, missed | misses)
}

// Four characters as one number, the first lowest: one load.
fn four_at(id: &[u8; 14], at: usize) -> u32
    requires { at ≤ 8 }
    ensures { chars_of result ≡ four_from id.now at }
{
    wide(id[at])
        + wide(id[at + 1]) * 256
        + wide(id[at + 2]) * 65_536
        + wide(id[at + 3]) * 16_777_216
}

fn wide(c: u8) -> u32
    ensures { (result ≡ c) × (result ≤ 255) }
{
    c as u32
}

// Each character less 48, and less 7 more if it has the bit of 64, as letters have: 0 to 9 and A to Z are 0 to 35. One that goes below 0
// borrows from the next; it is no digit itself.
fn digits(text: u32) -> u32
    ensures { result ≡ digits_of text }
{
    let letters = (text & 0x4040_4040) / 64;
    wrapping_sub_u32(text, 48 * ONES + letters * 7)
}

// 128 in each byte that is 128 or more.
fn tops(bytes: u32) -> u32
    ensures { result ≡ bit_and bytes 0x8080_8080 }
{
    bytes & 0x8080_8080
}

// 0 exactly if all four characters are digits: each is below 36 in `digits`, and 10 or more there exactly if it has a letter's bit.
fn misses(text: u32, digits: u32) -> u32
    requires { digits ≡ digits_of text }
    ensures { (result == 0) ≡ first_all is_digit 4 (chars_of text) }
{
    let large = tops(wrapping_add_u32(digits, 92 * ONES));
    let tens = tops(wrapping_add_u32(digits, 118 * ONES));
    let letters = tops((text & 0x7f7f_7f7f) * 2);
    tops(digits) | large | (tens ^ letters)
}

// The value of four digits.
fn four(digits: u32) -> u64
    ensures { result ≡ four_of digits }
{
    let pairs = (digits & 0x003f_003f) * 36 + ((digits & 0x3f00_3f00) / 256);
    (pairs % 65_536 * 1_296 + pairs / 65_536) as u64
}
