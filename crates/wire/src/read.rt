// Parts: what stands at a place.
ghost use Rattle.std.specs.Prelude.{◌≡◌, ◌+◌, ◌≤◌, length};
ghost use Rattle.wire.specs.Number.{part};

// N bytes as they stand there.
pub fn text_at<const N: usize>(s: &[u8], at: usize) -> [u8; N]
    requires { at + N ≤ length s.now }
    ensures { result ≡ part s.now at N }
{
    let mut text = [0u8; N];
    text.copy_from_slice(&s[at..at + N]);
    text
}
