// Parts: asking again for what is missing.
ghost use Rattle.std.specs.Prelude.{◌≡◌, ◌+◌, ◌-◌, ◌≤◌, length};
ghost use Rattle.wire.specs.Layout.{put_row};
ghost use Rattle.wire.specs.Number.{splice};
ghost use Rattle.window.specs.Runs.{asked_of, buffer_after, gaps_of, layout, missing_in, request_row, requests_of, runs_of, Room};

use crate::missing;
use crate::places::{NUMBERS, Window};
use refusals::Refusal;

// A request's bytes, and the same as its size has them.
const REQUEST: usize = 12;

const SIZE: u16 = REQUEST as u16;

fn request(buf: &mut [u8], at: usize, start: u32, count: u32)
    requires { at + 12 ≤ length buf.old }
    ensures { buf.new ≡ put_row layout (request_row start count) buf.old at }
{
    wire::put_number(buf, at, SIZE);
    wire::put_number(buf, at + 2, b'r');
    wire::put_number(buf, at + 3, start);
    wire::put_number(buf, at + 7, count);
    wire::put_number(buf, at + 11, b'Y');
}

// A loop, as `missing::count`: a run begins where the last one ended.
// One request for each run, one behind the other.
fn requests_from(window: &Window, from: u64, limit: u64, buf: &mut [u8])
    requires { Room window.now from limit (length buf.old) }
    ensures { buf.new ≡ splice buf.old 0 (requests_of (runs_of (missing_in window.now) from (limit - from))) }
{
    let mut next = from;
    let mut at: usize = 0;
    loop {
        let gap = missing::run(window, next, limit);
        if gap.count == 0 {
            return;
        }
        request(buf, at, gap.start as u32, gap.count as u32);
        next = gap.start + gap.count;
        at += REQUEST;
    }
}

// The requests for all that is missing, where the numbers from next on are known up to end. Mostly nothing is known
// beyond next.
pub fn requests(window: &Window, next: u64, end: u64, buf: &mut [u8]) -> Result<usize, Refusal>
    requires { (next ≤ end) × (end ≤ 4294967296) }
    ensures answer { result ≡ asked_of (gaps_of window.now next end) (length buf.old) }
    ensures buffer { buf.new ≡ buffer_after (gaps_of window.now next end) buf.old }
{
    if end == next {
        return Ok(0);
    }
    let limit = end.min(next + NUMBERS);
    let runs = missing::count(window, next, limit) as usize;
    if buf.len() < REQUEST * runs {
        return Err(Refusal::NoRoom);
    }
    requests_from(window, next, limit, buf);
    Ok(runs)
}
