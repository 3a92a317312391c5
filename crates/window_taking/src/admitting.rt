// Part: what judging one packet answers; `window_admitting` judges it.

// Where nothing waits, the messages of a packet are applied now, straight from it, or they are kept in any case, and
// applied later.
#[derive(Clone, Copy)]
pub enum Apply {
    Now,
    Later,
}

// Of a packet that is taken: end behind it, how many of its messages are applied straight from it, and how
// many of its numbers now wait that did not before.
#[derive(Clone, Copy)]
pub struct Admitted {
    pub end: u64,
    pub direct: usize,
    pub fresh: u64,
}
