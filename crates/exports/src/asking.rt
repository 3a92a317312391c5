// What can be asked, as numbers. Where a question is refused, what was lent for the reply stays as it was.
ghost use Rattle.std.specs.Prelude.{◌≡◌, ℕ, List, length};
ghost use Rattle.refusals.specs.Refusals.{refusal_in};
ghost use Rattle.window.specs.Runs.{asked_of, buffer_after};
ghost use Rattle.book.specs.Asking.{inside_for, order_asked};
ghost use Rattle.book_room.specs.Room.{insides_in, rule_number};
ghost use Rattle.session.specs.Meaning.{apart_in, held, rule_in, tables_in, Ruled};
ghost use Rattle.session.specs.Asking.{gap_from, gaps_of, line_in, lowest_number};
ghost use Rattle.session.specs.declared.state.Session.{Session as Table};
ghost use Rattle.single.specs.Over.{over};
ghost use Rattle.single.specs.Told.{number_told};
ghost use Rattle.exports.specs.Told.{gap_numbers, inside_numbers, inside_told, numbers_in, order_numbers};

use book::lookup::{back, front};
use book::tables::{Inside, Order};
use book_room::finding::found;
use book_room::room::{HELD, LIVE, Room};
use fields::id::value;
use refusals::Refusal;
use session::state::Session;
use single::telling::{count, tell};
use window::places::Window;

// Told are next, end, how many orders are live and insides held, the code of the last Trading Session, and of the
// faults the first one's number, their count and the first one's reason.
pub fn jangsebit_numbers(room: &Room, told: &mut [u64; 8])
    ensures { told.new ≡ over (numbers_in room.now) told.old }
{
    let next = session::asking::next(room);
    let end = session::asking::end(room);
    let live = room[LIVE];
    let held = room[HELD];
    let code = session::asking::code(room);
    let faults = session::asking::faults(room);
    told[0] = next;
    told[1] = end;
    told[2] = live;
    told[3] = held;
    told[4] = code;
    told[5] = faults.number;
    told[6] = faults.count;
    told[7] = faults.reason;
}

// The lowest number that no accepted packet has carried.
pub fn jangsebit_lowest(room: &Room, window: &Window) -> u64
    requires { (session : Table) × Ruled (held session room.now window.now) }
    ensures { result ≡ lowest_number (line_in room.now window.now) }
{
    session::asking::lowest(room, window)
}

// The rule that the opening chose for types that are not in the table: 0 by default, 1 for the strict one.
pub fn jangsebit_rule(room: &Room) -> u64
    ensures { result ≡ rule_number (rule_in room.now) }
{
    session::asking::rule(room) as u64
}

// How many messages of such a type were counted apart.
pub fn jangsebit_unlisted(room: &Room) -> u64
    ensures { result ≡ apart_in room.now }
{
    session::asking::unlisted(room)
}

pub fn order_numbers(order: Order) -> [u64; 8]
    ensures { result ≡ order_numbers order }
{
    let firm = order.firm;
    let symbol = order.symbol;
    [
        order.id,
        order.price,
        order.shares as u64,
        wire::number_at::<u32>(&firm, 0) as u64,
        front(symbol),
        back(symbol),
        order.side as u64,
        order.unsolicited as u64,
    ]
}

// As `session::asking::order` answers, which takes the session by value: here each question would copy 256 orders.
pub fn order(session: &Session, room: &Room, id: &[u8; 14]) -> Result<Order, Refusal>
    requires { (window : List ℕ) × Ruled (held session.now room.now window) }
    ensures { result ≡ order_asked (tables_in session.now room.now) id.now }
{
    let key = value(*id)?;
    let Some(place) = found(room, key) else {
        return Err(Refusal::NotThere);
    };
    Ok(session.orders[place])
}

fn inside_numbers(inside: Inside) -> [u64; 6]
    ensures { result ≡ inside_numbers inside }
{
    [
        inside.ask,
        inside.bid,
        inside.time,
        inside.askvolume,
        inside.bidvolume,
        inside.unsolicited as u64,
    ]
}

// The inside of a symbol: ask, bid, time, the volumes of both, unsolicited. The answer is the refusal: 12 where the
// symbol breaks its rule, 13 where no inside of it is held, else 0.
pub fn jangsebit_inside(room: &Room, symbol: &[u8; 14], told: &mut [u64; 6]) -> u64
    requires { (session : Table) × (window : List ℕ) × Ruled (held session room.now window) }
    ensures refusal { result ≡ refusal_in (inside_for (insides_in room.now) symbol.now) }
    ensures told { told.new ≡ inside_told (inside_for (insides_in room.now) symbol.now) told.old }
{
    let answer = session::asking::inside(room, *symbol);
    tell(told, answer.map(inside_numbers))
}

// The requests for all that is missing, into a buffer; told is how many. The answer is the refusal: 11 where the
// buffer is too short, and then it stays as it was, else 0.
pub fn jangsebit_requests(room: &Room, window: &Window, buf: &mut [u8], told: &mut [u64; 1]) -> u64
    requires { (session : Table) × Ruled (held session room.now window.now) }
    ensures refusal { result ≡ refusal_in (asked_of (gaps_of (line_in room.now window.now)) (length buf.old)) }
    ensures buffer { buf.new ≡ buffer_after (gaps_of (line_in room.now window.now)) buf.old }
    ensures told { told.new ≡ number_told (asked_of (gaps_of (line_in room.now window.now)) (length buf.old)) told.old }
{
    let asked = session::asking::requests(room, window, buf);
    tell(told, asked.map(count))
}

// The first run of missing numbers from a number on: its start, and its count, 0 where there is none.
pub fn jangsebit_gap(room: &Room, window: &Window, from: u64, told: &mut [u64; 2])
    requires { (session : Table) × Ruled (held session room.now window.now) }
    ensures { told.new ≡ over (gap_numbers (gap_from (line_in room.now window.now) from)) told.old }
{
    let gap = session::asking::gap(room, window, from);
    told[0] = gap.start;
    told[1] = gap.count;
}
