// A message that touches no order.
ghost use Rattle.std.specs.Prelude.{◌≡◌, false, ◌&&◌, ℕ, ◌+◌, ◌<◌, leb, set, take};
ghost use Rattle.message.specs.Layouts.{type_in};
ghost use Rattle.message.specs.Whole.{Whole};
ghost use Rattle.book.specs.Applying.{message_in, topic_of};
ghost use Rattle.book.specs.Lookup.{back_of, front_of, symbol_at};
ghost use Rattle.book.specs.Tables.{Book, holding_insides};
ghost use Rattle.book_room.specs.Room.{Filled, Houses, Lies, Spare, room_of};
ghost use Rattle.book_room.specs.Arms.{Told};

use crate::finding::held_at;
use crate::marking::mark;
use crate::room::{BACKS, CODE, FRONTS, HELD, ROW, ROWS, SYMBOLS};
use crate::unlisted::{count_apart, rule_in};
use book::deciding::Effect;
use book::lookup::{back, front};
use book::tables::Inside;
use book_deciding::reading::inside_of;
use message::Kind;

// Where the inside that a message tells of is held; a Top of Book alone tells of one.
fn told(room: &[u64], bytes: &[u8]) -> Option<usize>
    requires whole { Whole bytes.now }
    requires by_index { (next end : ℕ) × (b : Book) × Lies room.now next end b }
    ensures { (next end : ℕ) (b : Book) → Lies room.now next end b → result ≡ symbol_at (topic_of (message_in bytes.now)) (take b.held b.fronts) (take b.held b.backs) }
{
    if wire::number_at::<u8>(bytes, 2) != Kind::Top.number() {
        return None;
    }
    held_at(room, inside_of(bytes).symbol)
}

// An inside's six numbers at its place.
fn write(room: &mut [u64], place: usize, told: Inside)
    requires place_bound { place < 64 }
    requires by_index { (next end : ℕ) × (b : Book) × Filled room.old next end b }
    ensures { (next end : ℕ) (b : Book) → Filled room.old next end b → room.new ≡ room_of next end (holding_insides b (set b.insides place told) b.fronts b.backs b.held) }
{
    let at = ROWS + ROW * place;
    room[at] = told.ask;
    room[at + 1] = told.bid;
    room[at + 2] = told.time;
    room[at + 3] = told.askvolume;
    room[at + 4] = told.bidvolume;
    room[at + 5] = told.unsolicited as u64;
}

// A symbol comes, behind the last one.
fn enter(room: &mut [u64], held: usize, symbol: [u8; 14])
    requires { (next end : ℕ) × (b : Book) × Spare room.old next end b held }
    ensures { (next end : ℕ) (b : Book) → Spare room.old next end b held → room.new ≡ room_of next end (holding_insides b b.insides (set b.fronts held (front_of symbol)) (set b.backs held (back_of symbol)) (held + 1)) }
{
    let first = front(symbol);
    room[FRONTS + held] = first;
    room[BACKS + held] = back(symbol);
    room[HELD] = (held + 1) as u64;
    book_index::put(&mut room[SYMBOLS..FRONTS], held, first);
}

pub fn tell(room: &mut [u64], bytes: &[u8], number: u64)
    requires bytes_value { (leb 21 (type_in bytes.now) && leb (type_in bytes.now) 25) ≡ false }
    requires by_index { (next end : ℕ) × (b : Book) × Houses room.old next end b number bytes.now }
    ensures { (next end : ℕ) (b : Book) → Houses room.old next end b number bytes.now → Told room.new next end b number bytes.now }
{
    let held = room[HELD] as usize;
    let rule = rule_in(room);
    let inside = told(room, bytes);
    match book_deciding::tell(bytes, inside, held, rule) {
        Effect::Renew(place) => {
            let made = inside_of(bytes);
            write(room, place, made);
        }
        Effect::Enter => {
            let made = inside_of(bytes);
            let symbol = made.symbol;
            write(room, held, made);
            enter(room, held, symbol);
        }
        Effect::Record(code) => room[CODE] = code as u64,
        Effect::Fault(reason) => mark(room, number, reason.number()),
        Effect::CountApart => count_apart(room, number),
        _ => {}
    }
}
