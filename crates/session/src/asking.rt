// What can be asked of a session, and the requests for what was lost. A question is lent what it reads:
// the room, the window, and the order table where a record of it is told.
ghost use Rattle.std.specs.Prelude.{◌≡◌, ℕ, ◌<◌, List, length};
ghost use Rattle.window.specs.Runs.{asked_of, buffer_after};
ghost use Rattle.book.specs.Asking.{order_asked, best_asked, inside_for};
ghost use Rattle.book.specs.Tables.{doubtful};
ghost use Rattle.book_room.specs.Room.{inside_at, insides_in, symbol_by};
ghost use Rattle.session.specs.Meaning.{apart_in, code_in, end_in, faults_in, held, next_in, rule_in, tables_in, Ruled};
ghost use Rattle.session.specs.Asking.{gap_from, gaps_of, line_in, lowest_number};
ghost use Rattle.session.specs.declared.state.Session.{Session as Table};

use crate::state::Session;
use book::asking::Level;
use book::tables::{Faults, Inside, OpeningRule, Order};
use book_room::finding::{found, held_at};
use book_room::room::{
    APART, BACKS, CODE, COUNT, END, FAULT, FRONTS, LIVE, NEXT, REASON, ROW, ROWS, Room,
};
use book_room::unlisted::rule_in;
use fields::id::value;
use fields_rules::good_symbol;
use refusals::Refusal;
use window::missing::{Gap, first_number};
use window::places::{NUMBERS, Window};

// The lowest number not applied.
pub fn next(room: &Room) -> u64
    ensures { result ≡ next_in room.now }
{
    room[NEXT]
}

pub fn end(room: &Room) -> u64
    ensures { result ≡ end_in room.now }
{
    room[END]
}

// The lowest number that no accepted packet has carried: the first from next on that does not wait.
pub fn lowest(room: &Room, window: &Window) -> u64
    requires { (session : Table) × Ruled (held session room.now window.now) }
    ensures { result ≡ lowest_number (line_in room.now window.now) }
{
    let next = room[NEXT];
    first_number(window, true, next, next + NUMBERS)
}

// The code of the last Trading Session; 0 before the first.
pub fn code(room: &Room) -> u64
    ensures { result ≡ code_in room.now }
{
    room[CODE]
}

// The first fault's number and reason, and how many messages faulted.
pub fn faults(room: &Room) -> Faults
    ensures { result ≡ faults_in room.now }
{
    Faults {
        number: room[FAULT],
        count: room[COUNT],
        reason: room[REASON],
    }
}

// A book is doubtful exactly if its count of faults is not 0.
pub fn doubtful(room: &Room) -> bool
    ensures { result ≡ doubtful (faults_in room.now) }
{
    room[COUNT] != 0
}

// The rule that the opening chose for types that are not in the table.
pub fn rule(room: &Room) -> OpeningRule
    ensures { result ≡ rule_in room.now }
{
    rule_in(room)
}

// How many messages of such a type were counted apart; 0 under the strict rule.
pub fn unlisted(room: &Room) -> u64
    ensures { result ≡ apart_in room.now }
{
    room[APART]
}

pub fn order(session: Session, room: &Room, id: [u8; 14]) -> Result<Order, Refusal>
    requires { (window : List ℕ) × Ruled (held session room.now window) }
    ensures { result ≡ order_asked (tables_in session room.now) id }
{
    let key = value(id)?;
    let Some(place) = found(room, key) else {
        return Err(Refusal::NotThere);
    };
    Ok(session.orders[place])
}

pub fn best(session: Session, room: &Room, symbol: [u8; 14], side: u8) -> Result<Level, Refusal>
    requires { (window : List ℕ) × Ruled (held session room.now window) }
    ensures { result ≡ best_asked (tables_in session room.now) symbol side }
{
    let live = room[LIVE] as usize;
    book::asking::best(&session.orders[..live], symbol, side)
}

// A symbol's bytes by its two numbers.
fn symbol_by(first: u64, last: u64) -> [u8; 14]
    ensures { result ≡ symbol_by first last }
{
    let mut text = [0u8; 14];
    wire::put_number(&mut text, 0, first);
    wire::put_number(&mut text, 6, last);
    text
}

fn inside_at(room: &Room, place: usize) -> Inside
    requires { (place < 64) × ((inside_at room.now place).unsolicited < 256) }
    ensures { result ≡ inside_at room.now place }
{
    let at = ROWS + ROW * place;
    let symbol = symbol_by(room[FRONTS + place], room[BACKS + place]);
    Inside {
        ask: room[at],
        bid: room[at + 1],
        time: room[at + 2],
        askvolume: room[at + 3],
        bidvolume: room[at + 4],
        symbol,
        unsolicited: room[at + 5] as u8,
    }
}

pub fn inside(room: &Room, symbol: [u8; 14]) -> Result<Inside, Refusal>
    requires { (session : Table) × (window : List ℕ) × Ruled (held session room.now window) }
    ensures { result ≡ inside_for (insides_in room.now) symbol }
{
    if !good_symbol(symbol) {
        return Err(Refusal::BadQuestion);
    }
    let Some(place) = held_at(room, symbol) else {
        return Err(Refusal::NotThere);
    };
    Ok(inside_at(room, place))
}

// One request for each run of missing numbers.
pub fn requests(room: &Room, window: &Window, buf: &mut [u8]) -> Result<usize, Refusal>
    requires { (session : Table) × Ruled (held session room.now window.now) }
    ensures answer { result ≡ asked_of (gaps_of (line_in room.now window.now)) (length buf.old) }
    ensures buffer { buf.new ≡ buffer_after (gaps_of (line_in room.now window.now)) buf.old }
{
    window::asking::requests(window, room[NEXT], room[END], buf)
}

// The first run of missing numbers from a number on; its count is 0 where there is none.
pub fn gap(room: &Room, window: &Window, from: u64) -> Gap
    requires { (session : Table) × Ruled (held session room.now window.now) }
    ensures { result ≡ gap_from (line_in room.now window.now) from }
{
    let next = room[NEXT];
    let limit = room[END].min(next + NUMBERS);
    let first = from.max(next).min(limit);
    window::missing::run(window, first, limit)
}
