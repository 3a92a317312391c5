// A session with its own room and window: what a program holds, in one value.
//
// A part, for the programs `capture`, `desk` and `examples`. A host in C, and one that shares a room, lend the room and
// the window with each call instead (`session`, `session_keeping`).
#![tactic(auto)]

ghost use Rattle.std.specs.Prelude.{◌≡◌};
ghost use Rattle.merge.specs.State.{apply_some, keep_one, opened, take_one};
ghost use Rattle.book.specs.Tables.{fresh};
ghost use Rattle.session.specs.Asking.{line_in};
ghost use Rattle.session.specs.Bursts.{answer_of, applied_by};
ghost use Rattle.session.specs.Meaning.{overnight, rep, view, Ruled};
ghost use Rattle.session_keeping.specs.Keeping.{kept_of};
ghost use Rattle.session_owned.specs.Holding.{held_by};

use book::tables::OpeningRule;
use book_room::room::Room;
use refusals::Refusal;
use session::packets;
use session::state::Session;
use session_keeping::keeping;
use window::places::Window;

// The rule stands in the clauses and is no ghost field: it holds the calls that gave it, and so has more than one proof.
#[derive(Drop)]
pub struct Owned {
    pub session: Session,
    pub room: Room,
    pub window: Window,
}

impl Owned {
    pub fn open(number: u32, rule: OpeningRule) -> Self
        ensures opened { held_by result ≡ rep (opened (fresh rule) number) }
        ensures rule { Ruled (held_by result) }
    {
        let mut room = [0u64; Session::ROOM];
        let mut window = [0u8; Session::PLACES];
        let session = Session::open(number, rule, &mut room, &mut window);
        Owned {
            session,
            room,
            window,
        }
    }

    // Whatever stood there is gone.
    pub fn reopen(&mut self, number: u32, rule: OpeningRule)
        ensures opened { held_by self.new ≡ rep (opened (fresh rule) number) }
        ensures rule { Ruled (held_by self.new) }
    {
        self.session = Session::open(number, rule, &mut self.room, &mut self.window);
    }

    // One packet taken. The answer is how many messages were applied.
    pub fn take(&mut self, packet: &[u8]) -> Result<u64, Refusal>
        requires { Ruled (held_by self.old) }
        ensures taken { held_by self.new ≡ rep (take_one overnight (view (held_by self.old)) packet.now) }
        ensures answer { result ≡ answer_of (view (held_by self.old)) packet.now }
        ensures rule { Ruled (held_by self.new) }
    {
        let taken = packets::take(self.session, &mut self.room, &mut self.window, packet);
        self.session = taken.session;
        taken.answer
    }

    // One packet kept. The answer is how many of its numbers now wait that did not before.
    pub fn keep(&mut self, packet: &[u8]) -> Result<u64, Refusal>
        requires { Ruled (held_by self.old) }
        ensures kept { held_by self.new ≡ rep (keep_one overnight (view (held_by self.old)) packet.now) }
        ensures answer { result ≡ kept_of (line_in self.old.room self.old.window) packet.now }
        ensures rule { Ruled (held_by self.new) }
    {
        keeping::keep(&mut self.room, &mut self.window, packet)
    }

    // Up to a count of what waits applied, and how many messages that were.
    pub fn apply(&mut self, count: u64) -> u64
        requires { Ruled (held_by self.old) }
        ensures applied { held_by self.new ≡ rep (apply_some overnight count (view (held_by self.old))) }
        ensures count { result ≡ applied_by (view (held_by self.old)) count }
        ensures rule { Ruled (held_by self.new) }
    {
        let applied = packets::apply(self.session, &mut self.room, &mut self.window, count);
        self.session = applied.session;
        applied.count
    }
}
