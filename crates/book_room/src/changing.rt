// A message that names a live order: Update, Delete and the executions.
ghost use Rattle.std.specs.Prelude.{◌≡◌, ℕ, true};
ghost use Rattle.message.specs.Layouts.{type_in};
ghost use Rattle.message.specs.Whole.{Whole};
ghost use Rattle.book.specs.Tables.{Book};
ghost use Rattle.book.specs.Applying.{names};
ghost use Rattle.book_room.specs.Room.{Gone, Leaves, Lies};
ghost use Rattle.book_room.specs.Arms.{Changed, Known, named_in};

use crate::finding::found;
use crate::marking::mark;
use crate::room::{INDEX, KEYS, LIVE, SYMBOLS};
use book::deciding::Effect;
use book_deciding::reading::key_at;

// The value of the id that a message names, and where that order is live.
#[derive(Clone, Copy)]
pub struct Name {
    pub key: u64,
    pub order: Option<usize>,
}

// What is to be done in the session's table: the order at a place has these shares and this price; the
// last one takes its place; or nothing.
// Three cases of one kind and no `Option` of two: who stores the record matches them at once.
#[derive(Clone, Copy)]
pub enum Act {
    Replace(usize, u32, u64),
    Remove(usize, usize),
    Nothing,
}

pub fn named(room: &[u64], bytes: &[u8]) -> Name
    requires bytes_value { names (type_in bytes.now) ≡ true }
    requires by_index { (next end : ℕ) × (b : Book) × Lies room.now next end b }
    requires whole { Whole bytes.now }
    ensures { (next end : ℕ) (b : Book) → Lies room.now next end b → result ≡ named_in b bytes.now }
{
    let key = key_at(bytes);
    let order = found(room, key);
    Name { key, order }
}

// The order at a place leaves: the last one takes its place in the index.
fn remove(room: &mut [u64], place: usize) -> usize
    requires { (next end : ℕ) × (b : Book) × Leaves room.old next end b place }
    ensures { (next end : ℕ) (b : Book) → Leaves room.old next end b place → Gone room.new next end b place result }
{
    let last = (room[LIVE] - 1) as usize;
    let gone = room[KEYS + place];
    let moved = room[KEYS + last];
    room[KEYS + place] = moved;
    room[KEYS + last] = 0;
    room[LIVE] = last as u64;
    book_index::remove(&mut room[INDEX..SYMBOLS], last, place, gone, moved);
    last
}

pub fn change(
    room: &mut [u64],
    bytes: &[u8],
    named: Name,
    shares: u32,
    price: u64,
    number: u64,
) -> Act
    requires bytes_value { names (type_in bytes.now) ≡ true }
    requires by_index { (next end : ℕ) × (b : Book) × Known room.old next end b number bytes.now named shares price }
    ensures { (next end : ℕ) (b : Book) → Known room.old next end b number bytes.now named shares price → Changed room.new next end b number bytes.now result }
{
    let order = named.order;
    match book_deciding::change(bytes, named.key, order, shares, price) {
        Effect::Replace(place, left, at) => Act::Replace(place, left, at),
        Effect::Remove(place) => {
            let last = remove(room, place);
            Act::Remove(place, last)
        }
        Effect::Fault(reason) => {
            mark(room, number, reason.number());
            Act::Nothing
        }
        _ => Act::Nothing,
    }
}
