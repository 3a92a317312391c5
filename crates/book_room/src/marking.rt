// A message that faults: the first fault's number and reason stay, and each fault counts. The reason is its number, as the room has it,
// which C reads.
ghost use Rattle.std.specs.Prelude.{◌≡◌, ℕ};
ghost use Rattle.book.specs.Tables.{Book, holding_marks};
ghost use Rattle.book.specs.Applying.{faulted};
ghost use Rattle.book_room.specs.Room.{Counts, room_of};

use crate::room::{COUNT, FAULT, REASON};

pub fn mark(room: &mut [u64], number: u64, reason: u8)
    requires { (next end : ℕ) × (b : Book) × Counts room.old next end b number }
    ensures { (next end : ℕ) (b : Book) → Counts room.old next end b number → room.new ≡ room_of next end (holding_marks b b.code (faulted b.faults number reason)) }
{
    if room[COUNT] == 0 {
        room[FAULT] = number;
        room[REASON] = reason as u64;
    }
    room[COUNT] += 1;
}
