// What is printed: lines put behind one another in a buffer, which is written where the next might not fit.
ghost use Rattle.std.specs.Prelude.{◌≡◌, ◌≤◌, OnErr};
ghost use Rattle.text.specs.Output.{Put, PutNumber};

use refusals::Refusal;
use std::io;
use text::{number, output};
use window::missing::Gap;

// The buffer's bytes, and more of them than any line has.
const BYTES: usize = 8192;

const LINE: usize = 64;

#[derive(Drop)]
pub struct Lines {
    bytes: [u8; BYTES],
    end: usize,
    ghost within: { end ≤ 8192 },
}

impl Lines {
    pub fn new() -> Self {
        Lines {
            bytes: [0u8; BYTES],
            end: 0,
        }
    }

    // To standard output.
    pub fn write_out(&mut self, rt: &impl Print) -> io::Result<()>
        ensures err { OnErr result (self.new ≡ self.old) }
    {
        self.end = output::write(rt, &self.bytes, self.end)?;
        Ok(())
    }

    // Before a line: all before it is written where it might not fit.
    pub fn make_room(&mut self, rt: &impl Print) -> io::Result<()>
        ensures err { OnErr result (self.new ≡ self.old) }
    {
        if self.end < BYTES - LINE {
            return Ok(());
        }
        self.write_out(rt)
    }

    fn text(&mut self, text: &[u8])
        ensures { Put self.old.bytes self.old.end text.now self.new.end self.new.bytes }
    {
        self.end = output::put(&mut self.bytes, self.end, text);
    }

    // Its digits are those of `number::put`, whose clause says them: `writeln!` to a buffer of one's own says nothing of them.
    fn number(&mut self, n: u64)
        ensures { PutNumber self.old.bytes self.old.end n self.new.end self.new.bytes }
    {
        self.end = number::put(&mut self.bytes, self.end, n);
    }

    // `next` and `end` after the packet, how many messages were applied, and the answer.
    pub fn packet(&mut self, next: u64, end: u64, answer: Result<u64, Refusal>) {
        self.number(next);
        self.text(b" ");
        self.number(end);
        match answer {
            Ok(count) => {
                self.text(b" ");
                self.number(count);
                self.text(b" ok\n");
            }
            Err(refusal) => {
                self.text(b" 0 refused ");
                self.number(refusal.number() as u64);
                self.text(b"\n");
            }
        }
    }

    pub fn gap(&mut self, gap: Gap) {
        self.text(b"gap ");
        self.number(gap.start);
        self.text(b" ");
        self.number(gap.count);
        self.text(b"\n");
    }
}
