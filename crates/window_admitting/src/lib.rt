// Parts: one packet judged by 1 to 10 and, if none applies, kept, or left to be applied straight from its bytes.
#![tactic(auto)]

ghost use Rattle.std.specs.Prelude.{◌≡◌, ◌&&◌, eqb};
ghost use Rattle.packet.specs.Walk.{frames_from};
ghost use Rattle.window_taking.specs.Taking.{differ_from, is_some};
ghost use Rattle.window_taking.specs.Keeping.{state_of, waiting_of, window_for, Neat, Known, Passed, admitted_of, at_once, held_by};

use packet::header;
use packet_judge::judge;
use refusals::Refusal;
use window::places::{NUMBERS, Window};
use window_taking::admitting::{Admitted, Apply};
use window_taking::differing::differs;
use window_taking::keeping::keep_all;

// A packet that is taken, and changes no more than end.
fn taken(end: u64) -> Admitted
    ensures { result ≡ record { end = end; direct = 0; fresh = 0 } }
{
    Admitted {
        end,
        direct: 0,
        fresh: 0,
    }
}

// Nothing is known beyond next, and the packet starts there; where its messages are to be applied at once.
fn straight(apply: Apply, next: u64, end: u64, first: u64) -> bool
    ensures { result ≡ (at_once apply && (eqb end next && eqb first next)) }
{
    match apply {
        Apply::Now => end == next && first == next,
        Apply::Later => false,
    }
}

// Test 10. What waits lies below end, so a packet that starts there or behind it differs from nothing.
fn clashes(window: &Window, next: u64, end: u64, s: &[u8], first: u64, messages: u8) -> bool
    requires neat { Neat window.now next }
    requires known { Known window.now next end }
    requires passed { Passed s.now next first messages }
    ensures { result ≡ is_some (differ_from (waiting_of window.now next) first (frames_from messages 12 s.now) s.now) }
{
    if end <= first {
        return false;
    }
    differs(window, next, s, first, messages)
}

// A packet that is taken is kept, or left to be applied straight from its bytes; one that is refused changes nothing.
pub fn admit(
    window: &mut Window,
    next: u64,
    end: u64,
    s: &[u8],
    apply: Apply,
) -> Result<Admitted, Refusal>
    requires neat { Neat window.old next }
    requires known { Known window.old next end }
    ensures answer { result ≡ admitted_of (at_once apply) (state_of window.old next end) s.now }
    ensures kept { window.new ≡ window_for (held_by (at_once apply) (state_of window.old next end) s.now).waiting next }
{
    judge(s)?;
    let head = header::fields(s);
    let first = head.seq as u64;
    let messages = head.messages;
    if head.flag % 2 == 1 {
        return Ok(taken(end.max(first)));
    }
    let stop = first + (messages as u64);
    if next + NUMBERS < stop {
        return Err(Refusal::TooFarAhead);
    }
    let behind = taken(end.max(stop));
    if stop <= next {
        return Ok(behind);
    }
    if straight(apply, next, end, first) {
        let direct = messages as usize;
        return Ok(Admitted { direct, ..behind });
    }
    if clashes(window, next, end, s, first, messages) {
        return Err(Refusal::Differs);
    }
    let fresh = keep_all(window, next, s, first, messages);
    Ok(Admitted { fresh, ..behind })
}
