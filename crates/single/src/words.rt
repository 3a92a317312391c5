// The fields of a message as numbers of 1, 2, 4 or 8 bytes, one behind the other: a text of 14 bytes is three of them.
ghost use Rattle.std.specs.Prelude.{◌≡◌, ◌+◌, ◌<◌, ◌^◌, ◌≤◌, leb, length};
ghost use Rattle.wire.specs.Number.{be, num, part, splice};
ghost use Rattle.message.specs.Layouts.{layout_of};
ghost use Rattle.single.specs.Words.{bytes_in, counts, widths_of};

use crate::words::Width::{Eight, Four, One, Two};
use message::Kind;

// How many bytes a number takes.
#[derive(Clone, Copy)]
pub enum Width {
    One,
    Two,
    Four,
    Eight,
}

impl Width {
    pub fn bytes(self) -> usize
        ensures { result ≡ bytes_in self }
    {
        match self {
            Width::One => 1,
            Width::Two => 2,
            Width::Four => 4,
            Width::Eight => 8,
        }
    }
}

// The widths by type, of 28 and unlisted types none.
pub fn words_of(kind: u8) -> &'static [Width]
    ensures { counts result.now ≡ widths_of (layout_of kind) }
{
    let Ok(kind) = Kind::try_from(kind) else {
        return &[];
    };
    match kind {
        Kind::Security => &[Eight, Four, Two, Eight, One, One, Four, Two, One, One, One],
        Kind::SpinStart => &[One, Eight, Four],
        Kind::SpinEnd => &[One, Four, Eight, Four],
        Kind::TradingSession => &[Eight, One],
        Kind::Add => &[
            Four, Eight, Four, Two, One, Four, Eight, Four, Two, Eight, Four, One, Two,
        ],
        Kind::Update => &[Four, Eight, Four, Two, Four, Eight, Two],
        Kind::Delete => &[Four, Eight, Four, Two],
        Kind::Execution => &[Four, Eight, Four, Two, Four, Four, Eight],
        Kind::Priced => &[Four, Eight, Four, Two, Four, Four, Eight, Eight],
        Kind::Top => &[Four, Eight, Four, Two, Eight, Four, Eight, Four, One],
        Kind::Trade => &[Four, One, Four, Eight, Four, Two, Eight, Eight, Eight],
        Kind::Imbalance => &[],
    }
}

pub fn number_at(s: &[u8], at: usize, width: Width) -> u64
    requires width_in_bounds { at + bytes_in width ≤ length s.now }
    ensures { result ≡ num (part s.now at (bytes_in width)) }
{
    match width {
        Width::One => wire::number_at::<u8>(s, at) as u64,
        Width::Two => wire::number_at::<u16>(s, at) as u64,
        Width::Four => wire::number_at::<u32>(s, at) as u64,
        Width::Eight => wire::number_at(s, at),
    }
}

// A number does not fit in so many bytes.
pub fn too_wide(width: Width, n: u64) -> bool
    ensures { result ≡ leb (256 ^ bytes_in width) n }
{
    match width {
        Width::One => 256 <= n,
        Width::Two => 65536 <= n,
        Width::Four => 4294967296 <= n,
        Width::Eight => false,
    }
}

pub fn put_number(buf: &mut [u8], at: usize, width: Width, n: u64)
    requires width_in_bounds { at + bytes_in width ≤ length buf.old }
    requires n_bound { n < 256 ^ bytes_in width }
    ensures { buf.new ≡ splice buf.old at (be (bytes_in width) n) }
{
    match width {
        Width::One => wire::put_number(buf, at, n as u8),
        Width::Two => wire::put_number(buf, at, n as u16),
        Width::Four => wire::put_number(buf, at, n as u32),
        Width::Eight => wire::put_number(buf, at, n),
    }
}
