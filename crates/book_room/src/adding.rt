// An Order Add.
ghost use Rattle.std.specs.Prelude.{◌≡◌, ℕ, ◌+◌, set};
ghost use Rattle.message.specs.Layouts.{type_in};
ghost use Rattle.book.specs.Tables.{Book, holding_orders};
ghost use Rattle.book_room.specs.Room.{Free, Houses, room_of};
ghost use Rattle.book_room.specs.Arms.{Added};

use crate::finding::found;
use crate::marking::mark;
use crate::room::{INDEX, KEYS, LIVE, SYMBOLS};
use book::deciding::Effect;
use book_deciding::reading::key_at;

// Where in the session's table the order goes, and its id's value.
#[derive(Clone, Copy)]
pub struct Placed {
    pub place: usize,
    pub key: u64,
}

// A key comes, behind the last one.
fn enter(room: &mut [u64], live: usize, key: u64)
    requires { (next end : ℕ) × (b : Book) × Free room.old next end b live }
    ensures { (next end : ℕ) (b : Book) → Free room.old next end b live → room.new ≡ room_of next end (holding_orders b b.orders (set b.keys live key) (live + 1)) }
{
    room[KEYS + live] = key;
    room[LIVE] = (live + 1) as u64;
    book_index::put(&mut room[INDEX..SYMBOLS], live, key);
}

pub fn add(room: &mut [u64], bytes: &[u8], number: u64) -> Option<Placed>
    requires bytes_value { type_in bytes.now ≡ 21 }
    requires by_index { (next end : ℕ) × (b : Book) × Houses room.old next end b number bytes.now }
    ensures { (next end : ℕ) (b : Book) → Houses room.old next end b number bytes.now → Added room.new next end b number bytes.now result }
{
    let key = key_at(bytes);
    let order = found(room, key);
    let live = room[LIVE] as usize;
    match book_deciding::add(bytes, key, order, live) {
        Effect::Fault(reason) => {
            mark(room, number, reason.number());
            None
        }
        _ => {
            enter(room, live, key);
            Some(Placed { place: live, key })
        }
    }
}
