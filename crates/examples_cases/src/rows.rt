// Parts: a case is a line, its label, a bar, and words behind it.
ghost use Rattle.std.specs.List.{position};
ghost use Rattle.std.specs.Prelude.{◌==◌, ◌≡◌, ◌≤◌, length};
ghost use Rattle.examples_cases.specs.Lines.{behind_of, label_of, letter_of, place_of, value_of};

use text::number::parse;
use text::words::word;

fn bar(line: &[u8]) -> Option<usize>
    ensures { result ≡ position (λ b. b == 124) line.now }
{
    line.iter().position(|b| *b == b'|')
}

// Where the bar is, or the end.
#[tactic(auto, using(crate::proofs::Places::bar_or_end))]
fn bar_or_end(line: &[u8]) -> usize
    ensures is { result ≡ place_of 124 line.now }
    ensures most { result ≤ length line.now }
{
    bar(line).unwrap_or(line.len())
}

// What stands before the bar and its space.
pub fn label(line: &[u8]) -> &[u8]
    ensures { result.now ≡ label_of line.now }
{
    let bar = bar_or_end(line);
    &line[..bar.saturating_sub(1)]
}

// The k-th word behind the bar, the empty one where there is none.
fn behind(line: &[u8], k: u8) -> &[u8]
    ensures { result.now ≡ behind_of line.now k }
{
    let bar = bar_or_end(line);
    word(&line[bar..], k as usize + 1)
}

// The k-th word as a number, 0 where it is none.
pub fn number(line: &[u8], k: u8) -> u64
    ensures { result ≡ value_of line.now k }
{
    parse(behind(line, k), u64::MAX).unwrap_or(0)
}

// A number that is a place or a length.
pub fn place(line: &[u8], k: u8) -> usize
    ensures { result ≡ value_of line.now k }
{
    number(line, k) as usize
}

// The first letter of the k-th word, 0 where there is none.
pub fn letter(line: &[u8], k: u8) -> u8
    ensures { result ≡ letter_of line.now k }
{
    behind(line, k).first().copied().unwrap_or(0)
}
