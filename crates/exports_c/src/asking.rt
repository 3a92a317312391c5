// What can be asked, as numbers.
ghost use Rattle.std.specs.Prelude.{◌≡◌, ℕ, List, length};
ghost use Rattle.window.specs.Runs.{asked_of, buffer_after};
ghost use Rattle.book.specs.Asking.{inside_for};
ghost use Rattle.book_room.specs.Room.{insides_in, rule_number};
ghost use Rattle.session.specs.Meaning.{apart_in, held, rule_in, Ruled};
ghost use Rattle.session.specs.Asking.{gap_from, gaps_of, line_in, lowest_number};
ghost use Rattle.refusals.specs.Refusals.{refusal_in};
ghost use Rattle.session.specs.declared.state.Session.{Session as Table};
ghost use Rattle.single.specs.Over.{over};
ghost use Rattle.single.specs.Told.{number_told};
ghost use Rattle.exports.specs.Told.{gap_numbers, inside_told, numbers_in};

use book_room::room::Room;
use window::places::Window;

// Told are next, end, how many orders are live and insides held, the code of the last Trading Session, and of the
// faults the first one's number, their count and the first one's reason.
#[unsafe(no_mangle)]
pub extern "C" fn jangsebit_numbers(room: &Room, told: &mut [u64; 8])
    ensures { told.new ≡ over (numbers_in room.now) told.old }
{
    exports::jangsebit_numbers(room, told);
}

// The lowest number that no accepted packet has carried.
#[unsafe(no_mangle)]
pub extern "C" fn jangsebit_lowest(room: &Room, window: &Window) -> u64
    requires { (session : Table) × Ruled (held session room.now window.now) }
    ensures { result ≡ lowest_number (line_in room.now window.now) }
{
    exports::jangsebit_lowest(room, window)
}

// The rule that the opening chose for types that are not in the table: 0 by default, 1 for the strict one.
#[unsafe(no_mangle)]
pub extern "C" fn jangsebit_rule(room: &Room) -> u64
    ensures { result ≡ rule_number (rule_in room.now) }
{
    exports::jangsebit_rule(room)
}

// How many messages of such a type were counted apart.
#[unsafe(no_mangle)]
pub extern "C" fn jangsebit_unlisted(room: &Room) -> u64
    ensures { result ≡ apart_in room.now }
{
    exports::jangsebit_unlisted(room)
}

// The inside of a symbol: ask, bid, time, the volumes of both, unsolicited. The answer is the refusal: 12 where the
// symbol breaks its rule, 13 where no inside of it is held, else 0.
#[unsafe(no_mangle)]
pub extern "C" fn jangsebit_inside(room: &Room, symbol: &[u8; 14], told: &mut [u64; 6]) -> u64
    requires { (session : Table) × (window : List ℕ) × Ruled (held session room.now window) }
    ensures refusal { result ≡ refusal_in (inside_for (insides_in room.now) symbol.now) }
    ensures told { told.new ≡ inside_told (inside_for (insides_in room.now) symbol.now) told.old }
{
    exports::jangsebit_inside(room, symbol, told)
}

// The requests for all that is missing, into a buffer; told is how many. The answer is the refusal: 11 where the
// buffer is too short, and then it stays as it was, else 0.
#[unsafe(no_mangle)]
pub extern "C" fn jangsebit_requests(
    room: &Room,
    window: &Window,
    buf: &mut [u8],
    told: &mut [u64; 1],
) -> u64
    requires { (session : Table) × Ruled (held session room.now window.now) }
    ensures refusal { result ≡ refusal_in (asked_of (gaps_of (line_in room.now window.now)) (length buf.old)) }
    ensures buffer { buf.new ≡ buffer_after (gaps_of (line_in room.now window.now)) buf.old }
    ensures told { told.new ≡ number_told (asked_of (gaps_of (line_in room.now window.now)) (length buf.old)) told.old }
{
    exports::jangsebit_requests(room, window, buf, told)
}

// The first run of missing numbers from a number on: its start, and its count, 0 where there is none.
#[unsafe(no_mangle)]
pub extern "C" fn jangsebit_gap(room: &Room, window: &Window, from: u64, told: &mut [u64; 2])
    requires { (session : Table) × Ruled (held session room.now window.now) }
    ensures { told.new ≡ over (gap_numbers (gap_from (line_in room.now window.now) from)) told.old }
{
    exports::jangsebit_gap(room, window, from, told);
}
