// The payload size by type.
ghost use Rattle.std.specs.Prelude.{◌≡◌};
ghost use Rattle.message.specs.Table.{payload_listed, payload_table, too_short};

// A message's header, which is the shortest message, and the longest message, in bytes.
pub const HEADER: usize = 3;

pub const LONGEST: usize = 128;

// All listed types are below this one.
pub const TYPES: usize = 32;

// What the table has for a type that is not listed. It stays a number: the sizes are a constant array of bytes, a
// fixed form of this project, copied whole by who asks for many types.
const UNLISTED: u8 = 255;

pub(crate) const PAYLOAD: [u8; TYPES] = [
    255, 255, 255, 255, 255, 255, 255, 255, 255, 33, 255, 13, 17, 255, 255, 255, 255, 255, 255,
    255, 9, 52, 32, 18, 34, 42, 43, 47, 0, 255, 255, 255,
];

// The table, copied once by whoever asks for many types, and lent from there.
#[derive(Clone, Copy, Debug, PartialEq, Eq, PartialOrd, Ord, Hash)]
pub struct Payloads {
    pub by_type: [u8; TYPES],
    ghost listed: { by_type ≡ payload_table },
}

// A part: one copy of it.
pub fn sizes() -> Payloads
    ensures { result.by_type ≡ payload_table }
{
    Payloads { by_type: PAYLOAD }
}

impl Payloads {
    // A part: the payload that a listed type needs.
    pub fn payload(&self, kind: u8) -> Option<u8>
        ensures { result ≡ payload_listed kind }
    {
        let at = kind as usize;
        if TYPES <= at {
            return None;
        }
        let needed = self.by_type[at];
        if needed == UNLISTED {
            return None;
        }
        Some(needed)
    }

    // A part: a message of n bytes is of a listed type and shorter than its layout.
    pub fn too_short(&self, kind: u8, n: usize) -> bool
        ensures { result ≡ too_short kind n }
    {
        match self.payload(kind) {
            Some(needed) => n < HEADER + (needed as usize),
            None => false,
        }
    }
}
