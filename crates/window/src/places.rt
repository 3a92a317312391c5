// Parts: one place of the window.
ghost use Rattle.std.specs.Prelude.{◌≡◌, ◌+◌, ◌*◌, ◌≤◌, ◌<◌, length};
ghost use Rattle.wire.specs.Number.{part, splice};
ghost use Rattle.window.specs.Window.{agreeing, size_at, some_size, start_of, zeros};

use crate::copying;

// How many numbers may wait, the bytes of a place, which has room for a longest message, and the bytes of all places.
pub const NUMBERS: u64 = 256;

pub const PLACE: usize = message::LONGEST;

pub const BYTES: usize = (NUMBERS as usize) * PLACE;

// The places, one behind the other.
pub type Window = [u8; BYTES];

// A size, if it is not 0.
pub fn some_size(size: usize) -> Option<usize>
    ensures { result ≡ some_size size }
{
    if size == 0 { None } else { Some(size) }
}

// The size of what waits at a place, which begins with it; a place that is free begins with zeros.
pub fn size_at(window: &Window, place: usize) -> Option<usize>
    requires { place < 256 }
    ensures { result ≡ some_size (size_at window.now place) }
{
    some_size(wire::number_at::<u16>(window, place * PLACE) as usize)
}

// How many bytes from the front agree.
fn agreeing(there: &[u8], message: &[u8]) -> usize
    requires { length there.now ≡ length message.now }
    ensures { result ≡ agreeing there.now message.now }
{
    for k in 0..message.len() {
        if there[k] != message[k] {
            return k;
        }
    }
    message.len()
}

// The same of what waits at a place and a message: mostly all of them, which is looked at first.
pub fn agree(window: &Window, place: usize, message: &[u8]) -> usize
    requires { (place < 256) × (length message.now ≤ 128) }
    ensures { result ≡ agreeing (part window.now (start_of place) (length message.now)) message.now }
{
    let start = place * PLACE;
    let there = &window[start..start + message.len()];
    if there == message {
        return message.len();
    }
    agreeing(there, message)
}

// A message kept at a place.
pub fn keep(window: &mut Window, place: usize, message: &[u8])
    requires { (place < 256) × (length message.now ≤ 128) }
    ensures { window.new ≡ splice window.old (start_of place) message.now }
{
    let start = place * PLACE;
    copying::put(window, start, message);
}

// A place made free.
pub fn clear(window: &mut Window, place: usize)
    requires { place < 256 }
    ensures { window.new ≡ splice window.old (start_of place) (zeros 128) }
{
    let start = place * PLACE;
    window[start..start + PLACE].fill(0);
}
