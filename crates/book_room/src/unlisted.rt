// Types that are not in the table: the rule for them, and their count.
ghost use Rattle.std.specs.Prelude.{◌≡◌, ℕ, ◌<◌, get_or, length};
ghost use Rattle.book.specs.Applying.{counted_apart};
ghost use Rattle.book.specs.Tables.{Book, holding_unlisted};
ghost use Rattle.book_room.specs.Room.{Counts, room_of, rule_by};

use crate::room::{APART, RULE};
use book::tables::OpeningRule;

// 0 or 1 in the room, which C reads: this is the one place that reads it.
pub fn rule_in(room: &[u64]) -> OpeningRule
    requires { 8 < length room.now }
    ensures { result ≡ rule_by (get_or room.now 8 0) }
{
    match room[RULE] {
        1 => OpeningRule::Strict,
        _ => OpeningRule::Default,
    }
}

// One more that is no fault.
pub fn count_apart(room: &mut [u64], number: u64)
    requires { (next end : ℕ) × (b : Book) × Counts room.old next end b number }
    ensures { (next end : ℕ) (b : Book) → Counts room.old next end b number → room.new ≡ room_of next end (holding_unlisted b (counted_apart b.unlisted)) }
{
    room[APART] += 1;
}
