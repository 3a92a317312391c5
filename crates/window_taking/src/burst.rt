// Parts: where a burst is; `window_burst` goes from one packet to the next.
use refusals::Refusal;

// Where a burst is: whether a packet is at hand; how many follow; where the next one's bytes begin;
// where the answer at hand goes; and of the packet at hand, next before it, its refusal if there is one, end
// behind it,
// how many of its messages are applied straight from it and where they begin or, where none is, how many
// of those that wait are due.
// `begun` is a flag and no Option, which would be no plainer: next before it and end stand in each turn (Turns.at_start).
#[derive(Clone, Copy)]
pub struct Turn {
    pub begun: bool,
    pub left: usize,
    pub at: usize,
    pub place: usize,
    pub before: u64,
    pub refusal: Option<Refusal>,
    pub end: u64,
    pub direct: usize,
    pub from: usize,
}

#[derive(Clone, Copy)]
pub struct Frame {
    pub start: usize,
    pub size: usize,
}
