// Parts: bytes put at a place, all others staying.
ghost use Rattle.std.specs.Prelude.{◌≡◌, ◌+◌, ◌≤◌, length};
ghost use Rattle.wire.specs.Number.{splice};

#[tactic(auto, using(crate::proofs::Splice::replaced))]
pub fn put_text(buf: &mut [u8], at: usize, text: &[u8])
    requires { at + length text.now ≤ length buf.old }
    ensures { buf.new ≡ splice buf.old at text.now }
{
    buf[at..at + text.len()].copy_from_slice(text);
}
