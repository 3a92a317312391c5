// Parts: the engine. No order is copied but those that a message touches, and nothing is written but what a packet or a message changes.
ghost use Rattle.std.specs.Prelude.{◌≡◌, ◌-◌, ◌≤◌, length};
ghost use Rattle.wire.specs.Number.{splice};
ghost use Rattle.merge.specs.State.{apply_up_to, take_all};
ghost use Rattle.session.specs.Meaning.{feed, held, overnight, rep, view, Ruled};
ghost use Rattle.window_taking.specs.Turns.{end_from, packets_from};
ghost use Rattle.session.specs.Bursts.{rows_of, Runs};

use crate::advancing::{Ended, Point, advance, begin};
use crate::settling::{Outcome, settle};
use crate::state::Session;
use book::tables::no_order;
use book_room::room::Room;
use window::places::Window;

pub fn ended(count: usize, point: Point) -> Ended
    requires { point.turn.left ≤ count }
    ensures { result ≡ record { taken = count - point.turn.left; at = point.turn.at } }
{
    let turn = point.turn;
    Ended {
        taken: count - turn.left,
        at: turn.at,
    }
}

// `packets` and `single` stay two parameters: the definitions (`packets_from`) and the calls of C have them so.
// Up to so many of the messages that wait are applied; then so many packets of the lent bytes are taken, or
// all that there are, one after the other. The engine stops at each message that touches an order, and what
// that message does is stored here.
pub fn run(
    session: &mut Session,
    room: &mut Room,
    window: &mut Window,
    packets: &[u8],
    single: bool,
    count: usize,
    answers: &mut [u64],
    due: usize,
) -> Ended
    requires ruled { Ruled (held session.old room.old window.old) }
    requires runs { Runs count (length answers.old) }
    ensures held { held session.new room.new window.new ≡ rep (take_all overnight (apply_up_to feed due (view (held session.old room.old window.old))) (packets_from single count 0 packets.now)) }
    ensures answers { answers.new ≡ splice answers.old 0 (rows_of (apply_up_to feed due (view (held session.old room.old window.old))) (packets_from single count 0 packets.now)) }
    ensures taken { result.taken ≡ length (packets_from single count 0 packets.now) }
    ensures at { result.at ≡ end_from single count 0 packets.now }
{
    let mut text = [0u8; Session::MOST];
    let mut point = begin(room, count, due);
    // `advance` says at each message that touches an order whether there is one.
    loop {
        point = advance(room, window, packets, single, &mut text, answers, point);
        let Some(hand) = point.at_hand else {
            return ended(count, point);
        };
        let place = hand.place;
        let there = session.orders[place];
        match settle(room, &text, packets, point, hand, there) {
            Outcome::Moves { last } => {
                session.orders[place] = session.orders[last];
                session.orders[last] = no_order();
            }
            Outcome::Stores(order) => session.orders[place] = order,
        }
    }
}
