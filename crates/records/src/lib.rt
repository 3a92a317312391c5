// The records of a capture: the mark A5 5A, a length of two bytes, and that many bytes of a packet.
//
// A record is whole where its mark, its length and all its bytes are there (specs/Records.antt); what
// is cut short, or has no mark, is none. `marked`, `size_at` and `unmarked` say so of any place in
// what is held, and `number_of` where a session opens whose first record has this packet.
#![tactic(auto)]

ghost use Rattle.std.specs.Prelude.{◌≡◌, ◌+◌, ◌≤◌, length};
ghost use Rattle.records.specs.Records.{marked_at, opening_of, unmarked_at, Sized};

// The bytes before a packet.
pub const HEAD: usize = 4;

// The mark is there.
#[tactic(auto, unfolding(crate::specs::Records::marked_at))]
pub fn marked(held: &[u8], at: usize) -> bool
    requires { at + 2 ≤ length held.now }
    ensures { result ≡ marked_at held.now at }
{
    held[at] == 0xA5 && held[at + 1] == 0x5A
}

// How many bytes the whole record at a place has, its head counted.
#[tactic(auto, unfolding(crate::specs::Records::size_at))]
pub fn size_at(held: &[u8], at: usize) -> Option<usize>
    requires { at ≤ length held.now }
    ensures { Sized held.now at result }
{
    let left = held.len() - at;
    if left < HEAD {
        return None;
    }
    if !marked(held, at) {
        return None;
    }
    let size = wire::number_at::<u16>(held, at + 2) as usize;
    if left - HEAD < size {
        return None;
    }
    Some(HEAD + size)
}

// A record's head is there, and has no mark: nothing behind it is read.
#[tactic(auto, unfolding(crate::specs::Records::unmarked_at))]
pub fn unmarked(held: &[u8], at: usize) -> bool
    requires { at ≤ length held.now }
    ensures { result ≡ unmarked_at held.now at }
{
    HEAD <= held.len() - at && !marked(held, at)
}

// 0 is no mark for none here: a session opens at 0 then (`opening_of`).
// The SeqNum of a packet; 0 where it is under 12 bytes.
#[tactic(auto, unfolding(crate::specs::Records::opening_of))]
pub fn number_of(packet: &[u8]) -> u32
    ensures { result ≡ opening_of packet.now }
{
    if packet.len() < 12 {
        return 0;
    }
    wire::number_at(packet, 2)
}
