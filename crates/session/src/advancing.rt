// Parts: a run until a message touches an order. It knows nothing of the order table, which so may lie anywhere.
ghost use Rattle.std.specs.Prelude.{◌≡◌, List};
ghost use Rattle.book.specs.declared.tables.Order.{Order};
ghost use Rattle.session.specs.Meaning.{end_in, next_in};
ghost use Rattle.session.specs.Engine.{at_hand_of, begin_of, between_of, Came, Going, Task};

use crate::touching::{Touch, apply};
use book_room::changing::Name;
use book_room::room::{END, NEXT, Room};
use session_message::PacketRest;
use window::places::{NUMBERS, PLACE, Window};
use window_burst::{close, done, follow, start};
use window_taking::burst::Turn;

// A message that touches an order: the order's place and its name, where the message lies and its size.
#[derive(Clone, Copy)]
pub struct AtHand {
    pub place: usize,
    pub name: Name,
    pub here: PacketRest,
    pub size: usize,
}

// Where a run is, and the message at hand, if one touches an order.
#[derive(Clone, Copy)]
pub struct Point {
    pub at_hand: Option<AtHand>,
    pub next: u64,
    pub turn: Turn,
    pub rest: PacketRest,
}

// How many packets a run took, and where the bytes behind them begin.
#[derive(Clone, Copy)]
pub struct Ended {
    pub taken: usize,
    pub at: usize,
}

// A point at which no message is at hand.
fn between(next: u64, turn: Turn, rest: PacketRest) -> Point
    ensures { result ≡ between_of next turn rest }
{
    Point {
        at_hand: None,
        next,
        turn,
        rest,
    }
}

fn at_hand(
    touch: Touch,
    here: PacketRest,
    size: usize,
    next: u64,
    turn: Turn,
    rest: PacketRest,
) -> Point
    ensures { result ≡ at_hand_of touch here size next turn rest }
{
    let at_hand = Some(AtHand {
        place: touch.place,
        name: touch.name,
        here,
        size,
    });
    Point {
        at_hand,
        next,
        turn,
        rest,
    }
}

// Before the first packet so many of the messages that wait are due.
pub fn begin(room: &Room, count: usize, due: usize) -> Point
    ensures { result ≡ begin_of (next_in room.now) (end_in room.now) count due }
{
    let next = room[NEXT];
    let turn = start(next, room[END], count);
    between(next, turn, PacketRest { left: 0, from: due })
}

// What is due is applied; then each packet is kept and, unless it is refused, all is applied that can be.
// Where nothing waits, a packet's messages are applied straight from it.
pub fn advance(
    room: &mut Room,
    window: &mut Window,
    packets: &[u8],
    single: bool,
    text: &mut [u8; PLACE],
    answers: &mut [u64],
    point: Point,
) -> Point
    requires { (t : Task) × (os : List Order) × Going t packets.now single os room.old window.old answers.old text.old point }
    ensures { (t : Task) (os : List Order) → Going t packets.now single os room.old window.old answers.old text.old point → Came t packets.now single os room.new window.new answers.new text.new point result }
{
    let mut next = point.next;
    let mut turn = point.turn;
    let mut rest = point.rest;
    // A turn is a message or the step to the next packet, so there is no one sequence to go over.
    loop {
        let place = (next % NUMBERS) as usize;
        let here = rest;
        let Some(size) = session_message::size(window, packets, here, place) else {
            close(answers, turn, next);
            if done(packets, single, turn) {
                room[NEXT] = next;
                room[END] = turn.end;
                return between(next, turn, rest);
            }
            turn = follow(window, packets, single, turn, next);
            rest = PacketRest {
                left: turn.direct,
                from: turn.from,
            };
            continue;
        };
        session_message::fetch(text, window, here, place);
        session_message::free(window, here, place);
        rest = session_message::onward(here, size);
        let bytes = session_message::message(text, packets, here, size);
        let touched = apply(room, bytes, next);
        next += 1;
        if let Some(touch) = touched {
            return at_hand(touch, here, size, next, turn, rest);
        }
    }
}
