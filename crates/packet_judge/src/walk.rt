// Parts: the walk over a packet's messages. It steps by MessageSize.
ghost use Rattle.std.specs.Prelude.{◌≡◌, ◌≤◌, length};
ghost use Rattle.packet.specs.Walk.{some_size, step_at, walk_from};

use message::table::Payloads;

// The size of the message at a place, by the payload table; none where it is at fault.
fn step_by(s: &[u8], sizes: &Payloads, at: usize) -> Option<usize>
    requires { at ≤ length s.now }
    ensures { result ≡ some_size (step_at s.now at) }
{
    let left = s.len() - at;
    if left < message::HEADER {
        return None;
    }
    let size = wire::number_at::<u16>(s, at) as usize;
    if size < message::HEADER {
        return None;
    }
    if message::LONGEST < size {
        return None;
    }
    if left < size {
        return None;
    }
    if sizes.too_short(wire::number_at(s, at + 2), size) {
        return None;
    }
    Some(size)
}

// The same for one message by itself.
pub fn step(s: &[u8], at: usize) -> Option<usize>
    requires { at ≤ length s.now }
    ensures { result ≡ some_size (step_at s.now at) }
{
    let sizes = message::table::sizes();
    step_by(s, &sizes, at)
}

// Where the messages of a packet are at fault, if they are.
pub fn walk(s: &[u8], messages: u8) -> Option<usize>
    requires { 12 ≤ length s.now }
    ensures { result ≡ walk_from messages 12 s.now }
{
    let sizes = message::table::sizes();
    let mut at = packet::HEADER;
    for _ in 0..messages {
        let Some(size) = step_by(s, &sizes, at) else {
            return Some(at);
        };
        at += size;
    }
    if at < s.len() {
        return Some(at);
    }
    None
}
