// Parts: the numbers that are missing.
ghost use Rattle.std.specs.Prelude.{◌≡◌, ◌≤◌};
ghost use Rattle.window.specs.Runs.{missing_in, missing_is, IsCount, IsFirst, IsRun};

use crate::places;
use crate::places::{NUMBERS, Window};

// A number is missing where its place is free.
fn is_missing(window: &Window, k: u64) -> bool
    ensures { result ≡ missing_in window.now k }
{
    places::size_at(window, (k % NUMBERS) as usize).is_none()
}

// `wanted` is compared and switches nothing; the limit is the answer that the callers go on from, so it is no `Option`.
// The first number from a place on, below the limit, that is missing or is not, as wanted; else the limit.
pub fn first_number(window: &Window, wanted: bool, from: u64, limit: u64) -> u64
    requires { from ≤ limit }
    ensures { IsFirst (missing_is window.now wanted) from limit result }
{
    (from..limit)
        .find(|k| is_missing(window, *k) == wanted)
        .unwrap_or(limit)
}

// No `Option`: a run of none has the place where the search ended, which `jangsebit_gap` tells.
// A run of missing numbers, by its start and its count.
#[derive(Clone, Copy)]
pub struct Gap {
    pub start: u64,
    pub count: u64,
}

// The first run from a number on, below the limit; its count is 0 where there is none.
pub fn run(window: &Window, from: u64, limit: u64) -> Gap
    requires { from ≤ limit }
    ensures { IsRun (missing_in window.now) from limit result }
{
    let start = first_number(window, true, from, limit);
    let stop = first_number(window, false, start, limit);
    Gap {
        start,
        count: stop - start,
    }
}

// How many runs there are from a number on. A loop and no iterator, which would be no plainer: a run begins where the last one ended.
pub fn count(window: &Window, from: u64, limit: u64) -> u64
    requires { from ≤ limit }
    ensures { IsCount (missing_in window.now) from limit result }
{
    let mut at = from;
    let mut n: u64 = 0;
    loop {
        let next = run(window, at, limit);
        if next.count == 0 {
            return n;
        }
        at = next.start + next.count;
        n += 1;
    }
}
