// Taking packets, one or a burst of them, and applying what was kept. All go through one engine.
ghost use Rattle.std.specs.Prelude.{◌≡◌, cond, ◌≤◌, min, length};
ghost use Rattle.merge.specs.State.{apply_some, take_one};
ghost use Rattle.session.specs.Meaning.{held, overnight, rep, view, Ruled};
ghost use Rattle.refusals.specs.Refusals.{answered};
ghost use Rattle.session.specs.Bursts.{applied_by, answer_of, burst_of, bytes_of, count_if, count_of, answers_after};

use crate::running::run;
use crate::state::Session;
use book_room::room::{NEXT, Room};
use refusals::Refusal;
use window::places::{NUMBERS, Window};

#[derive(Clone, Copy)]
pub struct Taken {
    pub session: Session,
    // How many messages were applied.
    pub answer: Result<u64, Refusal>,
}

#[derive(Clone, Copy)]
pub struct AppliedSome {
    pub session: Session,
    // How many messages were applied.
    pub count: u64,
}

#[derive(Clone, Copy)]
pub struct TakenAll {
    pub session: Session,
    // How many packets were taken.
    pub count: Result<usize, Refusal>,
    // How many bytes they are, with their lengths: the next packet's begin behind them.
    pub bytes: usize,
}

// By the numbers that the run answered: how many were applied, and the refusal or 0.
fn answer_by(applied: u64, refusal: u64) -> Result<u64, Refusal>
    requires { refusal ≤ 14 }
    ensures { result ≡ answered refusal applied }
{
    match Refusal::try_from(refusal) {
        Ok(refusal) => Err(refusal),
        Err(_) => Ok(applied),
    }
}

// One packet: the lent bytes are the whole of it.
pub fn take(mut session: Session, room: &mut Room, window: &mut Window, packet: &[u8]) -> Taken
    requires { Ruled (held session room.old window.old) }
    ensures taken { held result.session room.new window.new ≡ rep (take_one overnight (view (held session room.old window.old)) packet.now) }
    ensures answer { result.answer ≡ answer_of (view (held session room.old window.old)) packet.now }
    ensures rule { Ruled (held result.session room.new window.new) }
{
    let mut answers = [0u64; 4];
    run(&mut session, room, window, packet, true, 1, &mut answers, 0);
    let answer = answer_by(answers[0], answers[1]);
    Taken { session, answer }
}

// A count for the engine, and what is answered: two answers of one test, each one `if`.
// None is taken where the answers do not fit.
pub fn due_of(fits: bool, count: usize) -> usize
    ensures { result ≡ cond fits count 0 }
{
    if fits { count } else { 0 }
}

pub fn count_of(fits: bool, count: usize) -> Result<usize, Refusal>
    ensures { result ≡ count_if fits count }
{
    if fits {
        Ok(count)
    } else {
        Err(Refusal::NoRoom)
    }
}

// The first packets of the lent bytes, each behind its length of 2 bytes: as many as the host says, or
// all that there are. Four numbers answer each: how many messages were applied, the refusal or 0, then
// next and end. None is taken where the answers to so many do not fit.
pub fn burst(
    mut session: Session,
    room: &mut Room,
    window: &mut Window,
    packets: &[u8],
    count: usize,
    answers: &mut [u64],
) -> TakenAll
    requires { Ruled (held session room.old window.old) }
    ensures taken { held result.session room.new window.new ≡ rep (burst_of (view (held session room.old window.old)) packets.now count (length answers.old)) }
    ensures count { result.count ≡ count_of packets.now count (length answers.old) }
    ensures bytes { result.bytes ≡ bytes_of packets.now count (length answers.old) }
    ensures answers { answers.new ≡ answers_after (view (held session room.old window.old)) packets.now count answers.old }
    ensures rule { Ruled (held result.session room.new window.new) }
{
    let fits = count <= answers.len() / 4;
    let due = due_of(fits, count);
    let ended = run(&mut session, room, window, packets, false, due, answers, 0);
    TakenAll {
        session,
        count: count_of(fits, ended.taken),
        bytes: ended.at,
    }
}

// No more than the window has can wait.
pub fn most_due(count: u64) -> usize
    ensures { result ≡ min count 256 }
{
    count.min(NUMBERS) as usize
}

// Up to a count of the messages that wait from next on, in their order.
pub fn apply(mut session: Session, room: &mut Room, window: &mut Window, count: u64) -> AppliedSome
    requires { Ruled (held session room.old window.old) }
    ensures applied { held result.session room.new window.new ≡ rep (apply_some overnight count (view (held session room.old window.old))) }
    ensures count { result.count ≡ applied_by (view (held session room.old window.old)) count }
    ensures rule { Ruled (held result.session room.new window.new) }
{
    let nothing = [0u8; 1];
    let mut answers = [0u64; 1];
    let before = room[NEXT];
    let due = most_due(count);
    run(
        &mut session,
        room,
        window,
        &nothing,
        false,
        0,
        &mut answers,
        due,
    );
    AppliedSome {
        session,
        count: room[NEXT] - before,
    }
}
