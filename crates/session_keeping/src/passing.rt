// A packet that does not carry next, while nothing waits there, applies nothing: taking it is keeping it. No table
// is touched or copied.
ghost use Rattle.std.specs.Prelude.{◌≡◌, ◌≤◌};
ghost use Rattle.window_taking.specs.Keeping.{waiting_of};
ghost use Rattle.session.specs.Meaning.{held, rep, view, Ruled};
ghost use Rattle.session.specs.Asking.{line_in};
ghost use Rattle.session_keeping.specs.Passing.{applies_at, carries_at, passed_of, pass_on};
ghost use Rattle.session.specs.declared.state.Session.{Session};

use crate::keeping::keep;
use book_room::room::{NEXT, Room};
use packet::{HEADER, header};
use refusals::Refusal;
use window::places::{NUMBERS, Window, size_at};

#[derive(Clone, Copy)]
pub enum Passed {
    // It carries next, or a message waits there: nothing is done, and it is for `take`.
    Applies,
    Kept,
}

// Whether a packet's header gives it next.
fn carries(packet: &[u8], next: u64) -> bool
    ensures { result ≡ carries_at next packet.now }
{
    if packet.len() < HEADER {
        return false;
    }
    let head = header::fields(packet);
    if head.flag % 2 == 1 {
        return false;
    }
    let first = head.seq as u64;
    if next < first {
        return false;
    }
    next < first + (head.messages as u64)
}

// Whether taking a packet may apply a message.
fn applies(window: &Window, packet: &[u8], next: u64) -> bool
    requires { next ≤ 4294967296 }
    ensures { result ≡ applies_at next (waiting_of window.now next) packet.now }
{
    if carries(packet, next) {
        return true;
    }
    size_at(window, (next % NUMBERS) as usize).is_some()
}

pub fn pass(room: &mut Room, window: &mut Window, packet: &[u8]) -> Result<Passed, Refusal>
    requires { (session : Session) × Ruled (held session room.old window.old) }
    ensures answer { result ≡ passed_of (line_in room.old window.old) packet.now }
    ensures held { (session : Session) → Ruled (held session room.old window.old) → held session room.new window.new ≡ rep (pass_on (view (held session room.old window.old)) packet.now) }
    ensures rule { (session : Session) → Ruled (held session room.old window.old) → Ruled (held session room.new window.new) }
{
    let next = room[NEXT];
    if applies(window, packet, next) {
        return Ok(Passed::Applies);
    }
    keep(room, window, packet)?;
    Ok(Passed::Kept)
}
