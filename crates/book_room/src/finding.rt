// Where an order is live and where a symbol's inside is held, by their indexes.
ghost use Rattle.std.specs.Prelude.{◌≡◌, ℕ, take};
ghost use Rattle.book.specs.Lookup.{key_at, symbol_at};
ghost use Rattle.book.specs.Tables.{Book};
ghost use Rattle.book_room.specs.Room.{Lies};

use crate::room::{BACKS, FRONTS, HELD, INDEX, KEYS, LIVE, ROWS, SYMBOLS};
use book::lookup::{back, front};
use fields::parts::NONE;

pub fn found(room: &[u64], key: u64) -> Option<usize>
    requires { (next end : ℕ) × (b : Book) × Lies room.now next end b }
    ensures { (next end : ℕ) (b : Book) → Lies room.now next end b → result ≡ key_at key (take b.live b.keys) }
{
    if key == NONE {
        return None;
    }
    let live = room[LIVE] as usize;
    book_index::find(&room[INDEX..SYMBOLS], &room[KEYS..INDEX], live, key)
}

pub fn held_at(room: &[u64], symbol: [u8; 14]) -> Option<usize>
    requires { (next end : ℕ) × (b : Book) × Lies room.now next end b }
    ensures { (next end : ℕ) (b : Book) → Lies room.now next end b → result ≡ symbol_at symbol (take b.held b.fronts) (take b.held b.backs) }
{
    let first = front(symbol);
    let last = back(symbol);
    if first == 0 {
        return None;
    }
    let held = room[HELD] as usize;
    book_index::pair(
        &room[SYMBOLS..FRONTS],
        &room[FRONTS..BACKS],
        &room[BACKS..ROWS],
        held,
        first,
        last,
    )
}
