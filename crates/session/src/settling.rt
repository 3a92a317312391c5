// Parts: what a message that touches an order does, told the record at the order's place.
ghost use Rattle.std.specs.Prelude.{Bool, List, ℕ};
ghost use Rattle.session.specs.Engine.{AtPlace, Settled, Task};

use crate::advancing::{AtHand, Point};
use book::tables::Order;
use book_deciding::reading::order_of;
use book_room::changing::{Act, change};
use book_room::room::Room;
use message::Kind;
use window::places::PLACE;

// What is to be done at the place: the last order moves there, or this record is put there.
#[derive(Clone, Copy)]
pub enum Outcome {
    Moves { last: usize },
    Stores(Order),
}

pub fn settle<'a>(
    room: &mut Room,
    text: &'a [u8; PLACE],
    packets: &'a [u8],
    point: Point,
    hand: AtHand,
    there: Order,
) -> Outcome
    requires { (t : Task) × (single : Bool) × (os : List Order) × (window answers : List ℕ) × AtPlace t packets.now single os room.old window answers text.now point hand there }
    ensures { (t : Task) (single : Bool) (os : List Order) (window answers : List ℕ) → AtPlace t packets.now single os room.old window answers text.now point hand there → Settled t packets.now single os room.new window answers text.now point hand result }
{
    let bytes = session_message::message(text, packets, hand.here, hand.size);
    let name = hand.name;
    if wire::number_at::<u8>(bytes, 2) == Kind::Add.number() {
        return Outcome::Stores(order_of(bytes, name.key));
    }
    match change(room, bytes, name, there.shares, there.price, point.next - 1) {
        Act::Replace(_, shares, price) => Outcome::Stores(Order {
            shares,
            price,
            ..there
        }),
        Act::Remove(_, last) => Outcome::Moves { last },
        Act::Nothing => Outcome::Stores(there),
    }
}
