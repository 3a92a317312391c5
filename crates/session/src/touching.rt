// Parts: one message, all of it that needs no record of the order table.
ghost use Rattle.std.specs.Prelude.{ℕ};
ghost use Rattle.book.specs.Tables.{Book};
ghost use Rattle.book_room.specs.Room.{Houses};
ghost use Rattle.session.specs.Engine.{Touched};

use book_room::adding::add;
use book_room::changing::{Name, named};
use book_room::room::Room;
use book_room::telling::tell;

// The place of the order that a message touches, and what it is named by.
#[derive(Clone, Copy)]
pub struct Touch {
    pub place: usize,
    pub name: Name,
}

// An Add is done but for its record, which goes to the place. Of a message that names an order nothing is
// done, as that takes the order's record. Any other is done.
pub fn apply(room: &mut Room, bytes: &[u8], number: u64) -> Option<Touch>
    requires { (next end : ℕ) × (b : Book) × Houses room.old next end b number bytes.now }
    ensures { (next end : ℕ) (b : Book) → Houses room.old next end b number bytes.now → Touched room.new next end b number bytes.now result }
{
    // By its number: of a pattern of several variants of `Kind` the proof learns nothing.
    let kind = wire::number_at::<u8>(bytes, 2);
    match kind {
        21 => {
            let placed = add(room, bytes, number)?;
            let name = Name {
                key: placed.key,
                order: None,
            };
            let place = placed.place;
            Some(Touch { place, name })
        }
        22 | 23 | 24 | 25 => {
            let name = named(room, bytes);
            let place = name.order.unwrap_or(0);
            Some(Touch { place, name })
        }
        _ => {
            tell(room, bytes, number);
            None
        }
    }
}
