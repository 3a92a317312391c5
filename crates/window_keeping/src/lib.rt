// Parts: the packets of a burst kept one after the other, and nothing applied.
#![tactic(auto)]

ghost use Rattle.std.specs.Prelude.{false, ◌≡◌, ◌+◌, ◌*◌, ◌≤◌, length};
ghost use Rattle.wire.specs.Number.{splice};
ghost use Rattle.window_taking.specs.Keeping.{kept_all, kept_by, state_of, window_for, Known, Neat};
ghost use Rattle.window_taking.specs.Turns.{end_from, packet_at, packets_from};
ghost use Rattle.window_keeping.specs.Keeping.{kept_row, kept_rows, turn_after, Hands};

use refusals::number_in;
use window::places::Window;
use window_admitting::admit;
use window_burst::{done, framed, put_answer, start};
use window_taking::admitting::Apply;
use window_taking::burst::Turn;

// How many packets there were, where the bytes behind them begin, and end behind them.
#[derive(Clone, Copy)]
pub struct KeptBurst {
    pub taken: usize,
    pub at: usize,
    pub end: u64,
}

// The next packet judged and kept, and its answer: how many of its numbers now wait that did not before, the
// refusal, next and end.
fn keep_next(window: &mut Window, s: &[u8], answers: &mut [u64], turn: Turn, next: u64) -> Turn
    requires neat { Neat window.old next }
    requires known { Known window.old next turn.end }
    requires hands { Hands s.now turn (length answers.old) }
    ensures turn { result ≡ turn_after (state_of window.old next turn.end) s.now turn }
    ensures answers { answers.new ≡ splice answers.old turn.place (kept_row (state_of window.old next turn.end) (packet_at false s.now turn.at)) }
    ensures kept { window.new ≡ window_for (kept_by (state_of window.old next turn.end) (packet_at false s.now turn.at)).waiting next }
{
    let frame = framed(s, turn.at);
    let begin = frame.start;
    let behind = begin + frame.size;
    let place = turn.place;
    let admitted = admit(window, next, turn.end, &s[begin..behind], Apply::Later);
    let refusal = number_in(&admitted) as u64;
    let (fresh, end) = match admitted {
        Ok(taken) => (taken.fresh, taken.end),
        Err(_) => (0, turn.end),
    };
    put_answer(answers, place, fresh, refusal, next, end);
    Turn {
        begun: false,
        left: turn.left - 1,
        at: behind,
        place: place + 4,
        before: next,
        refusal: None,
        end,
        direct: 0,
        from: 0,
    }
}

// So many packets of the lent bytes, or all that there are.
pub fn keep_packets(
    window: &mut Window,
    next: u64,
    end: u64,
    s: &[u8],
    count: usize,
    answers: &mut [u64],
) -> KeptBurst
    requires neat { Neat window.old next }
    requires known { Known window.old next end }
    requires count_in_bounds { 4 * count ≤ length answers.old }
    ensures kept { window.new ≡ window_for (kept_all (state_of window.old next end) (packets_from false count 0 s.now)).waiting next }
    ensures answers { answers.new ≡ splice answers.old 0 (kept_rows (state_of window.old next end) (packets_from false count 0 s.now)) }
    ensures taken { result.taken ≡ length (packets_from false count 0 s.now) }
    ensures at { result.at ≡ end_from false count 0 s.now }
    ensures end { result.end ≡ (kept_all (state_of window.old next end) (packets_from false count 0 s.now)).end }
{
    let mut turn = start(next, end, count);
    // Where a packet ends is known once it is looked at, so there is no sequence to go over.
    while !done(s, false, turn) {
        turn = keep_next(window, s, answers, turn, next);
    }
    KeptBurst {
        taken: count - turn.left,
        at: turn.at,
        end: turn.end,
    }
}
