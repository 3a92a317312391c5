// The lines of standard input.
ghost use Rattle.std.specs.Prelude.{◌≤◌, ◌<◌, length, IfSome};

use std::io;
use std::io::Read;
use text::input;

// The longest line, its line feed not counted.
const MOST: usize = 8192;

// A line with no line feed, or one that is too long.
pub enum Line<'a> {
    Whole(&'a [u8]),
    Long,
}

// What is held of the input lies between from and to.
#[derive(Drop)]
pub struct Lines {
    bytes: [u8; 16384],
    from: usize,
    to: usize,
    ended: bool,
    ghost starts: { from ≤ to },
    ghost stops: { to ≤ 16384 },
}

// Where the first line feed is.
fn feed(held: &[u8]) -> Option<usize>
    ensures { IfSome result (λ k. k < length held.now) }
{
    held.iter().position(|b| *b == b'\n')
}

// A line of that many bytes, or what is left of one whose front was dropped, is too long.
fn line_of(long: bool, line: &[u8]) -> Line<'_> {
    if long || MOST < line.len() {
        return Line::Long;
    }
    Line::Whole(line)
}

impl Lines {
    pub fn new() -> Self {
        Lines {
            bytes: [0u8; 16384],
            from: 0,
            to: 0,
            ended: false,
        }
    }

    // Whether a read brought any bytes: what is held goes to the front.
    fn more(&mut self, input: &mut impl Read) -> io::Result<bool> {
        let got = input::more(input, &mut self.bytes, self.from, self.to)?;
        let to = self.to - self.from + got;
        self.from = 0;
        self.to = to;
        Ok(0 < got)
    }

    // What stands behind the last line feed is a line if it has a byte.
    fn last(&mut self, long: bool) -> Option<Line<'_>> {
        let from = self.from;
        self.ended = true;
        self.from = self.to;
        if !long && from == self.to {
            return None;
        }
        Some(line_of(long, &self.bytes[from..self.to]))
    }

    // The next line, none where the input has ended. The count of turns is far above the reads of any run; the proof
    // ends by it.
    pub fn next(&mut self, input: &mut impl Read) -> io::Result<Option<Line<'_>>> {
        if self.ended {
            return Ok(None);
        }
        let mut long = false;
        'reads: for _ in 0..u64::MAX {
            let from = self.from;
            if let Some(count) = feed(&self.bytes[from..self.to]) {
                self.from = from + count + 1;
                return Ok(Some(line_of(long, &self.bytes[from..from + count])));
            }
            long = long || MOST < self.to - from;
            if long {
                self.from = self.to;
            }
            if !self.more(input)? {
                return Ok(self.last(long));
            }
        }
        Ok(None)
    }
}
