// A number that stands in lent bytes, big endian, and a text of bytes beside it: one of each width.
ghost use Rattle.std.specs.Prelude.{◌≡◌, ℕ, ◌+◌, ◌≤◌, length};
ghost use Rattle.wire.specs.Number.{num, part, be, splice};

use crate::read::text_at;
use crate::write::put_text;

// The numbers that a layout has, each with its width in bytes.
pub trait Number: Copy {
    ghost width: { ℕ };

    ghost value: { Self → ℕ };

    fn read(s: &[u8], at: usize) -> Self
        requires { at + width ≤ length s.now }
        ensures { value result ≡ num (part s.now at width) };

    fn write(self, buf: &mut [u8], at: usize)
        requires { at + width ≤ length buf.old }
        ensures { buf.new ≡ splice buf.old at (be width (value self)) };
}

impl Number for u8 {
    ghost width = { 1 };

    ghost value = { λ n. n };

    fn read(s: &[u8], at: usize) -> u8 {
        u8::from_be_bytes(text_at(s, at))
    }

    fn write(self, buf: &mut [u8], at: usize) {
        put_text(buf, at, &u8::to_be_bytes(self));
    }
}

impl Number for u16 {
    ghost width = { 2 };

    ghost value = { λ n. n };

    fn read(s: &[u8], at: usize) -> u16 {
        u16::from_be_bytes(text_at(s, at))
    }

    fn write(self, buf: &mut [u8], at: usize) {
        put_text(buf, at, &u16::to_be_bytes(self));
    }
}

impl Number for u32 {
    ghost width = { 4 };

    ghost value = { λ n. n };

    fn read(s: &[u8], at: usize) -> u32 {
        u32::from_be_bytes(text_at(s, at))
    }

    fn write(self, buf: &mut [u8], at: usize) {
        put_text(buf, at, &u32::to_be_bytes(self));
    }
}

impl Number for u64 {
    ghost width = { 8 };

    ghost value = { λ n. n };

    fn read(s: &[u8], at: usize) -> u64 {
        u64::from_be_bytes(text_at(s, at))
    }

    fn write(self, buf: &mut [u8], at: usize) {
        put_text(buf, at, &u64::to_be_bytes(self));
    }
}

pub fn number_at<N: Number>(s: &[u8], at: usize) -> N
    requires { at + N.width ≤ length s.now }
    ensures { N.value result ≡ num (part s.now at N.width) }
{
    N::read(s, at)
}

pub fn put_number<N: Number>(buf: &mut [u8], at: usize, n: N)
    requires { at + N.width ≤ length buf.old }
    ensures { buf.new ≡ splice buf.old at (be N.width (N.value n)) }
{
    n.write(buf, at);
}
