// A packet that needs no order.
ghost use Rattle.std.specs.Prelude.{◌≡◌};
ghost use Rattle.session.specs.Meaning.{held, rep, view, Ruled};
ghost use Rattle.session.specs.Asking.{line_in};
ghost use Rattle.session_keeping.specs.Passing.{passed_of, pass_on};
ghost use Rattle.session.specs.declared.state.Session.{Session};
ghost use Rattle.exports.specs.Passed.{pass_numbers};
ghost use Rattle.single.specs.Over.{over};

use book_room::room::Room;
use refusals::Refusal;
use session_keeping::passing::{Passed, pass};
use window::places::Window;

fn tell(told: &mut [u64; 2], passed: Result<Passed, Refusal>)
    ensures { told.new ≡ over (pass_numbers passed) told.old }
{
    match passed {
        Ok(Passed::Applies) => {
            told[0] = 0;
            told[1] = 0;
        }
        Ok(Passed::Kept) => {
            told[0] = 1;
            told[1] = 0;
        }
        Err(refusal) => {
            told[0] = 2;
            told[1] = refusal.number() as u64;
        }
    }
}

// One packet, if it does not carry next and nothing waits there: then it applies no message, and no order is needed.
// Told are 0 where taking it may apply one, and nothing was done; 1 where it was kept, or only its end counts; 2 where it
// was refused, and by which test.
pub fn jangsebit_pass(room: &mut Room, window: &mut Window, packet: &[u8], told: &mut [u64; 2])
    requires { (session : Session) × Ruled (held session room.old window.old) }
    ensures told { told.new ≡ over (pass_numbers (passed_of (line_in room.old window.old) packet.now)) told.old }
    ensures held { (session : Session) → Ruled (held session room.old window.old) → held session room.new window.new ≡ rep (pass_on (view (held session room.old window.old)) packet.now) }
    ensures rule { (session : Session) → Ruled (held session room.old window.old) → Ruled (held session room.new window.new) }
{
    tell(told, pass(room, window, packet));
}
