// Parts: an input, read by the buffer.
ghost use Rattle.std.specs.Prelude.{◌≡◌, ◌+◌, ◌-◌, ◌≤◌, length, take, drop, IfOk, OnErr};
ghost use Rattle.text.specs.Input.{More};

use std::io;
use std::io::Read;

// Moves what a buffer holds between two places to its front; what lies there already is not copied onto itself.
fn shift(buf: &mut [u8], from: usize, to: usize)
    requires { (from ≤ to) × (to ≤ length buf.old) }
    ensures { take (to - from) buf.new ≡ take (to - from) (drop from buf.old) }
{
    if from == 0 {
        return;
    }
    buf.copy_within(from..to, 0);
}

// One read; 0 where the input has ended.
fn read(input: &mut impl Read, buf: &mut [u8]) -> io::Result<usize>
    ensures ok { IfOk result (λ got. got ≤ length buf.new) }
    ensures err { OnErr result (length buf.new ≡ length buf.old) }
{
    input.read(buf)
}

// Moves what is held to the front, reads once behind it, and answers how many bytes came.
pub fn more(input: &mut impl Read, buf: &mut [u8], from: usize, to: usize) -> io::Result<usize>
    requires { (from ≤ to) × (to ≤ length buf.old) }
    ensures ok { IfOk result (λ got. More buf.old from to got buf.new) }
    ensures err { OnErr result (take (to - from) buf.new ≡ take (to - from) (drop from buf.old)) }
{
    shift(buf, from, to);
    let kept = to - from;
    read(input, &mut buf[kept..])
}
