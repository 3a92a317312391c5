// Keeping packets: each is judged and its messages wait, and none is applied. That needs the window and the
// numbers next and end, and no table.
ghost use Rattle.std.specs.Prelude.{◌≡◌, length};
ghost use Rattle.merge.specs.State.{keep_one};
ghost use Rattle.session.specs.Meaning.{held, overnight, rep, view, Ruled};
ghost use Rattle.session.specs.Asking.{line_in};
ghost use Rattle.session.specs.Bursts.{bytes_of, count_of};
ghost use Rattle.session.specs.declared.state.Session.{Session};
ghost use Rattle.session_keeping.specs.Keeping.{answers_kept, burst_kept, kept_of};

use book_room::room::{END, NEXT, Room};
use refusals::Refusal;
use session::packets::{count_of, due_of};
use window::places::Window;
use window_admitting::admit;
use window_keeping::keep_packets;
use window_taking::admitting::Apply;

#[derive(Clone, Copy)]
pub struct KeptAll {
    // How many packets were kept.
    pub count: Result<usize, Refusal>,
    // How many bytes they are, with their lengths.
    pub bytes: usize,
}

// The answer is how many of its numbers now wait that did not before.
pub fn keep(room: &mut Room, window: &mut Window, packet: &[u8]) -> Result<u64, Refusal>
    requires { (session : Session) × Ruled (held session room.old window.old) }
    ensures answer { result ≡ kept_of (line_in room.old window.old) packet.now }
    ensures held { (session : Session) → Ruled (held session room.old window.old) → held session room.new window.new ≡ rep (keep_one overnight (view (held session room.old window.old)) packet.now) }
    ensures rule { (session : Session) → Ruled (held session room.old window.old) → Ruled (held session room.new window.new) }
{
    let admitted = admit(window, room[NEXT], room[END], packet, Apply::Later)?;
    room[END] = admitted.end;
    Ok(admitted.fresh)
}

// The first packets of the lent bytes, each behind its length of 2 bytes: as many as the host says, or all
// that there are. Four numbers answer each: how many of its numbers now wait that did not before, the refusal
// or 0, then next and end. None is kept where the answers to so many do not fit.
pub fn keep_burst(
    room: &mut Room,
    window: &mut Window,
    packets: &[u8],
    count: usize,
    answers: &mut [u64],
) -> KeptAll
    requires { (session : Session) × Ruled (held session room.old window.old) }
    ensures count { result.count ≡ count_of packets.now count (length answers.old) }
    ensures bytes { result.bytes ≡ bytes_of packets.now count (length answers.old) }
    ensures answers { answers.new ≡ answers_kept (line_in room.old window.old) packets.now count answers.old }
    ensures held { (session : Session) → Ruled (held session room.old window.old) → held session room.new window.new ≡ rep (burst_kept (view (held session room.old window.old)) packets.now count (length answers.old)) }
    ensures rule { (session : Session) → Ruled (held session room.old window.old) → Ruled (held session room.new window.new) }
{
    let fits = count <= answers.len() / 4;
    let due = due_of(fits, count);
    let kept = keep_packets(window, room[NEXT], room[END], packets, due, answers);
    room[END] = kept.end;
    KeptAll {
        count: count_of(fits, kept.taken),
        bytes: kept.at,
    }
}
