// Parts: from one packet of a burst to the next.
#![tactic(auto)]

ghost use Rattle.std.specs.Prelude.{false, true, ◌≡◌, [], ◌∷◌, ◌+◌, ◌-◌, ◌≤◌, Ok, length};
ghost use Rattle.wire.specs.Number.{splice};
ghost use Rattle.refusals.specs.Refusals.{refusal_or_none};
ghost use Rattle.window_taking.specs.Keeping.{state_of, window_for, held_by, Known, Neat};
ghost use Rattle.window_taking.specs.Turns.{frame_at, from_by, packet_at, turn_of, at_start, closing, place_after, done_in, Lies, Closes, Follows};

use refusals::Refusal;
use window::places::{NUMBERS, Window};
use window_admitting::admit;
use window_taking::admitting::{Admitted, Apply};
use window_taking::burst::{Frame, Turn};

// No more than these can wait.
const DUE: usize = NUMBERS as usize;

// A packet behind its length.
pub fn framed(s: &[u8], at: usize) -> Frame
    requires { at + 2 ≤ length s.now }
    ensures { result ≡ frame_at false s.now at }
{
    let size = wire::number_at::<u16>(s, at) as usize;
    Frame {
        start: at + 2,
        size,
    }
}

// `single` is a bool and no enum, which would be no plainer: it is handed through to the definition, which asks it too.
fn frame_of(s: &[u8], single: bool, at: usize) -> Frame
    requires { Lies single s.now at }
    ensures { result ≡ frame_at single s.now at }
{
    if single {
        return Frame {
            start: at,
            size: s.len() - at,
        };
    }
    framed(s, at)
}

// Before the first packet.
pub fn start(next: u64, end: u64, count: usize) -> Turn
    ensures { result ≡ at_start next end count }
{
    Turn {
        begun: false,
        left: count,
        at: 0,
        place: 0,
        before: next,
        refusal: None,
        end,
        direct: 0,
        from: 0,
    }
}

// Where the messages begin that are applied straight from a packet that is taken; where none is, all of those
// that wait are due.
fn from_of(admitted: Admitted, begin: usize) -> usize
    ensures { result ≡ from_by (Ok admitted) begin }
{
    if admitted.direct == 0 { DUE } else { begin }
}

// The packet at a place, judged and kept.
fn begin(
    window: &mut Window,
    s: &[u8],
    single: bool,
    at: usize,
    left: usize,
    place: usize,
    next: u64,
    end: u64,
) -> Turn
    requires neat { Neat window.old next }
    requires lies { Lies single s.now at }
    requires known { Known window.old next end }
    ensures turn { result ≡ turn_of (state_of window.old next end) single s.now at left place }
    ensures kept { window.new ≡ window_for (held_by true (state_of window.old next end) (packet_at single s.now at)).waiting next }
{
    let frame = frame_of(s, single, at);
    let start = frame.start;
    let stop = start + frame.size;
    // Behind its header, or as much of that as there is.
    let from = start + frame.size.min(packet::HEADER);
    let turn = Turn {
        begun: true,
        left,
        at: stop,
        place,
        before: next,
        refusal: None,
        end,
        direct: 0,
        from: 0,
    };
    match admit(window, next, end, &s[start..stop], Apply::Now) {
        Ok(admitted) => Turn {
            end: admitted.end,
            direct: admitted.direct,
            from: from_of(admitted, from),
            ..turn
        },
        Err(refusal) => Turn {
            refusal: Some(refusal),
            ..turn
        },
    }
}

// Where the next answer goes.
fn after(turn: Turn) -> usize
    requires { place_after turn ≤ 18446744073709551615 }
    ensures { result ≡ place_after turn }
{
    if turn.begun {
        turn.place + 4
    } else {
        turn.place
    }
}

// Whether none follows the packet at hand: no more are asked for, or the bytes left are no whole one.
pub fn done(s: &[u8], single: bool, turn: Turn) -> bool
    requires { turn.at ≤ length s.now }
    ensures { result ≡ done_in single s.now turn }
{
    if turn.left == 0 {
        return true;
    }
    if single {
        return false;
    }
    let at = turn.at;
    let left = s.len() - at;
    if left < 2 {
        return true;
    }
    let frame = framed(s, at);
    left - 2 < frame.size
}

// The packet behind the one at hand.
pub fn follow(window: &mut Window, s: &[u8], single: bool, turn: Turn, next: u64) -> Turn
    requires neat { Neat window.old next }
    requires follows { Follows single s.now turn }
    requires known { Known window.old next turn.end }
    ensures turn { result ≡ turn_of (state_of window.old next turn.end) single s.now turn.at (turn.left - 1) (place_after turn) }
    ensures kept { window.new ≡ window_for (held_by true (state_of window.old next turn.end) (packet_at single s.now turn.at)).waiting next }
{
    let left = turn.left - 1;
    let place = after(turn);
    begin(window, s, single, turn.at, left, place, next, turn.end)
}

// Four numbers answer a packet.
pub fn put_answer(answers: &mut [u64], place: usize, first: u64, refusal: u64, next: u64, end: u64)
    requires { place + 4 ≤ length answers.old }
    ensures { answers.new ≡ splice answers.old place (first ∷ refusal ∷ next ∷ end ∷ []) }
{
    answers[place..place + 4].copy_from_slice(&[first, refusal, next, end]);
}

// The number of a refusal, 0 where there is none.
fn number(refusal: Option<Refusal>) -> u8
    ensures { result ≡ refusal_or_none refusal }
{
    refusal.map_or(0, |refusal| refusal.number())
}

// The answer to the packet at hand: how many were applied, the refusal, next and end.
pub fn close(answers: &mut [u64], turn: Turn, next: u64)
    requires { Closes turn next (length answers.old) }
    ensures { answers.new ≡ splice answers.old turn.place (closing turn next) }
{
    if !turn.begun {
        return;
    }
    let place = turn.place;
    let applied = next - turn.before;
    let refusal = number(turn.refusal) as u64;
    put_answer(answers, place, applied, refusal, next, turn.end);
}
