// Parts: test 10, a message that differs from the copy that waits under its number.
ghost use Rattle.std.specs.Prelude.{◌≡◌, ◌+◌, ◌<◌};
ghost use Rattle.message.specs.Whole.{Whole};
ghost use Rattle.packet.specs.Walk.{frames_from};
ghost use Rattle.window_taking.specs.Taking.{differ_at, differ_from, is_some};
ghost use Rattle.window_taking.specs.Keeping.{waiting_of, Neat, Passed};

use window::places;
use window::places::Window;

fn differs_at(window: &Window, next: u64, k: u64, message: &[u8]) -> bool
    requires neat { Neat window.now next }
    requires whole { Whole message.now }
    requires k_bound { k < next + 256 }
    ensures { result ≡ is_some (differ_at (waiting_of window.now next k) message.now) }
{
    if k < next {
        return false;
    }
    let place = (k % places::NUMBERS) as usize;
    let Some(there) = places::size_at(window, place) else {
        return false;
    };
    if there != message.len() {
        return true;
    }
    places::agree(window, place, message) != message.len()
}

pub fn differs(window: &Window, next: u64, s: &[u8], first: u64, messages: u8) -> bool
    requires neat { Neat window.now next }
    requires passed { Passed s.now next first messages }
    ensures { result ≡ is_some (differ_from (waiting_of window.now next) first (frames_from messages 12 s.now) s.now) }
{
    let mut at = packet::HEADER;
    for k in first..first + (messages as u64) {
        let size = wire::number_at::<u16>(s, at) as usize;
        if differs_at(window, next, k, &s[at..at + size]) {
            return true;
        }
        at += size;
    }
    false
}
