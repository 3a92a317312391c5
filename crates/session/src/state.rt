// The session's type, by value, and what is lent beside it with each call.
ghost use Rattle.std.specs.Prelude.{◌≡◌};
ghost use Rattle.merge.specs.State.{opened};
ghost use Rattle.book.specs.Tables.{fresh};
ghost use Rattle.book_room.specs.Room.{rule_number};
ghost use Rattle.session.specs.Meaning.{held, rep, Ruled};

use book::tables;
use book::tables::{OpeningRule, Order, no_order};
use book_room::room;
use book_room::room::Room;
use window::places;
use window::places::Window;

// The records of the live orders. All else is lent: the room of numbers (next, end, the counts, the code,
// the faults, the rule, the look-ups, the insides) and the window of messages that wait for their turn. A host holds
// the three together and lends the same room and window with each call.
//
// They are no struct with an invariant: a C host lends each at a place of its own, so each contract says `Ruled` of the three.
#[repr(C)]
#[derive(Clone, Copy)]
pub struct Session {
    pub orders: [Order; Session::ORDERS],
}

impl Session {
    // A packet's bytes, at least and at most.
    pub const SHORTEST: usize = packet::HEADER;

    pub const LONGEST: usize = packet::LONGEST;

    // A message's.
    pub const LEAST: usize = message::HEADER;

    pub const MOST: usize = message::LONGEST;

    pub const WINDOW: usize = places::NUMBERS as usize;

    pub const ORDERS: usize = tables::ORDERS;

    pub const INSIDES: usize = tables::INSIDES;

    // The numbers of the room, and the window's bytes: a longest message for each number.
    pub const ROOM: usize = room::NUMBERS;

    pub const PLACES: usize = places::BYTES;

    // Whatever stood in the room and the window is gone. A type that is not in the table is counted apart, or
    // is fault 1 under the strict rule.
    pub fn open(number: u32, rule: OpeningRule, room: &mut Room, window: &mut Window) -> Self
        ensures opened { held result room.new window.new ≡ rep (opened (fresh rule) number) }
        ensures rule { Ruled (held result room.new window.new) }
    {
        let order = no_order();
        let first = number as u64;
        window.fill(0);
        room.fill(0);
        room[room::NEXT] = first;
        room[room::END] = first;
        room[room::RULE] = rule_number(rule);
        Session {
            orders: [order; Self::ORDERS],
        }
    }
}

// The rule as it stands in the room.
fn rule_number(rule: OpeningRule) -> u64
    ensures { result ≡ rule_number rule }
{
    match rule {
        OpeningRule::Default => 0,
        OpeningRule::Strict => 1,
    }
}
