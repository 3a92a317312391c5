// Parts: a number in decimal.
ghost use Rattle.std.specs.Prelude.{◌≡◌};
ghost use Rattle.text.specs.Numbers.{Digit, Number};
ghost use Rattle.text.specs.Output.{PutNumber};

use crate::output;

// The number that a word stands for: digits alone, one or more, and at most the limit.
pub fn parse(word: &[u8], limit: u64) -> Option<u64>
    ensures { Number limit word.now result }
{
    if word.is_empty() {
        return None;
    }
    let mut value: u64 = 0;
    for c in word {
        let digit = digit_of(*c)?;
        if limit < digit {
            return None;
        }
        if (limit - digit) / 10 < value {
            return None;
        }
        value = value * 10 + digit;
    }
    Some(value)
}

// A digit's value.
#[tactic(auto, unfolding(crate::specs::Numbers::digit_of))]
fn digit_of(c: u8) -> Option<u64>
    ensures { Digit c result }
{
    match c {
        b'0'..=b'9' => Some((c - b'0') as u64),
        _ => None,
    }
}

pub fn put(out: &mut [u8], at: usize, n: u64) -> usize
    ensures { PutNumber out.old at n result out.new }
{
    let mut digits = [0u8; 20];
    let count = io::decimal(n, &mut digits);
    output::put(out, at, &digits[..count])
}
