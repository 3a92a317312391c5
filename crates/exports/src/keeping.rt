// Keeping packets: nothing is applied, and no order is needed.
ghost use Rattle.std.specs.Prelude.{◌≡◌, length};
ghost use Rattle.merge.specs.State.{keep_one};
ghost use Rattle.session.specs.Meaning.{held, overnight, rep, view, Ruled};
ghost use Rattle.session.specs.Asking.{line_in};
ghost use Rattle.session.specs.declared.state.Session.{Session};
ghost use Rattle.session_keeping.specs.Keeping.{answers_kept, burst_kept, kept_of};
ghost use Rattle.exports.specs.Handed.{taken_told};
ghost use Rattle.refusals.specs.Refusals.{refusal_in};
ghost use Rattle.single.specs.Told.{number_told};

use crate::taking::tell_all;
use book_room::room::Room;
use session_keeping::keeping::{keep, keep_burst};
use single::telling::{number, tell};
use window::places::Window;

// One packet judged, its messages kept until they are applied. Told is how many of its numbers now wait that did not
// before. The answer is the refusal, 1 to 10, and then nothing has changed, else 0.
pub fn jangsebit_keep(
    room: &mut Room,
    window: &mut Window,
    packet: &[u8],
    told: &mut [u64; 1],
) -> u64
    requires { (session : Session) × Ruled (held session room.old window.old) }
    ensures refusal { result ≡ refusal_in (kept_of (line_in room.old window.old) packet.now) }
    ensures told { told.new ≡ number_told (kept_of (line_in room.old window.old) packet.now) told.old }
    ensures held { (session : Session) → Ruled (held session room.old window.old) → held session room.new window.new ≡ rep (keep_one overnight (view (held session room.old window.old)) packet.now) }
    ensures rule { (session : Session) → Ruled (held session room.old window.old) → Ruled (held session room.new window.new) }
{
    tell(told, keep(room, window, packet).map(number))
}

// The first packets of the lent bytes, each behind its length of 2 bytes: as many as the count says, or all that there
// are, kept and none applied. Four numbers answer each: how many of its numbers now wait that did not before, the
// refusal or 0, then next and end. Told are the refusal, how many packets there were and how many bytes they are; 11
// where the answers to so many do not fit, and then nothing is kept.
pub fn jangsebit_keep_packets(
    room: &mut Room,
    window: &mut Window,
    packets: &[u8],
    count: u64,
    answers: &mut [u64],
    told: &mut [u64; 3],
)
    requires { (session : Session) × Ruled (held session room.old window.old) }
    ensures answers { answers.new ≡ answers_kept (line_in room.old window.old) packets.now count answers.old }
    ensures told { told.new ≡ taken_told 0 count packets.now (length answers.old) told.old }
    ensures held { (session : Session) → Ruled (held session room.old window.old) → held session room.new window.new ≡ rep (burst_kept (view (held session room.old window.old)) packets.now count (length answers.old)) }
    ensures rule { (session : Session) → Ruled (held session room.old window.old) → Ruled (held session room.new window.new) }
{
    let kept = keep_burst(room, window, packets, count as usize, answers);
    tell_all(told, kept.count, kept.bytes);
}
