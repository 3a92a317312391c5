// Parts: a symbol as numbers.
ghost use Rattle.std.specs.Prelude.{◌≡◌};
ghost use Rattle.book.specs.Lookup.{front_of, back_of, Apart};

// A symbol's first eight bytes, and its last eight: two names for two calls of one function.
pub fn front(symbol: [u8; 14]) -> u64
    ensures { result ≡ front_of symbol }
{
    wire::number_at(&symbol, 0)
}

pub fn back(symbol: [u8; 14]) -> u64
    ensures { result ≡ back_of symbol }
{
    wire::number_at(&symbol, 6)
}

// A symbol's first eight bytes, the next four and the last two. They share no byte, so each is one load.
#[derive(Clone, Copy, Debug, PartialEq, Eq)]
pub struct Parts {
    pub first: u64,
    pub middle: u32,
    pub last: u16,
}

impl From<[u8; 14]> for Parts {
    ghost from_gives = { Apart };

    fn from(symbol: [u8; 14]) -> Self {
        Parts {
            first: wire::number_at(&symbol, 0),
            middle: wire::number_at(&symbol, 8),
            last: wire::number_at(&symbol, 12),
        }
    }
}
