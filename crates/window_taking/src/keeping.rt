// Parts: the messages of a packet that is taken, kept until their turn.
ghost use Rattle.std.specs.Prelude.{◌≡◌, map, ◌+◌, ◌<◌};
ghost use Rattle.merge.specs.State.{fresh_in, keep as kept, packet, single};
ghost use Rattle.message.specs.Whole.{Whole};
ghost use Rattle.packet.specs.Walk.{frames_from};
ghost use Rattle.window_taking.specs.Taking.{bytes_at};
ghost use Rattle.window_taking.specs.Keeping.{state_of, window_for, Neat, Passed};

use window::places;
use window::places::Window;

// One message: below next it is passed over, and a copy that waits stays. The answer is how many numbers
// now wait that did not before.
fn keep_one(window: &mut Window, next: u64, k: u64, message: &[u8]) -> u64
    requires neat { Neat window.old next }
    requires whole { Whole message.now }
    requires k_bound { k < next + 256 }
    ensures fresh { result ≡ fresh_in (state_of window.old next next) (single k message.now) }
    ensures kept { window.new ≡ window_for (kept (state_of window.old next next) (single k message.now)).waiting next }
{
    if k < next {
        return 0;
    }
    let place = (k % places::NUMBERS) as usize;
    if places::size_at(window, place).is_some() {
        return 0;
    }
    places::keep(window, place, message);
    1
}

// All messages, the first under its number.
pub fn keep_all(window: &mut Window, next: u64, s: &[u8], first: u64, messages: u8) -> u64
    requires neat { Neat window.old next }
    requires passed { Passed s.now next first messages }
    ensures fresh { result ≡ fresh_in (state_of window.old next next) (packet first (map (bytes_at s.now) (frames_from messages 12 s.now))) }
    ensures kept { window.new ≡ window_for (kept (state_of window.old next next) (packet first (map (bytes_at s.now) (frames_from messages 12 s.now)))).waiting next }
{
    let mut at = packet::HEADER;
    let mut fresh: u64 = 0;
    for k in first..first + (messages as u64) {
        let size = wire::number_at::<u16>(s, at) as usize;
        fresh += keep_one(window, next, k, &s[at..at + size]);
        at += size;
    }
    fresh
}
