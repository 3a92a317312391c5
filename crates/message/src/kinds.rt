// A message: its texts beside the numbers of its kind. A text that a kind has not is all zero.

// The price of an execution.
#[derive(Clone, Copy)]
pub enum Terms {
    Published,
    Own(u64),
}

// The kinds, with the numbers of their layouts. They are not the records of layouts.rt, which hold texts: a message may
// have a text that its kind has not (`Proper` in message_write), and no such message could be said then.
#[derive(Clone, Copy)]
pub enum Body {
    Security {
        updated: u64,
        action: u8,
        class: u8,
        security: u32,
        flags: u16,
        tier: u8,
        reporting: u8,
        status: u8,
    },
    SpinStart {
        spin: u8,
        time: u64,
        last: u32,
    },
    SpinEnd {
        spin: u8,
        count: u32,
        time: u64,
        last: u32,
    },
    TradingSession {
        time: u64,
        session: u8,
    },
    Add {
        time: u32,
        side: u8,
        quantity: u32,
        price: u64,
        unsolicited: u8,
        flags: u16,
    },
    Update {
        time: u32,
        quantity: u32,
        price: u64,
        flags: u16,
    },
    Delete {
        time: u32,
    },
    Execution {
        time: u32,
        executed: u32,
        remaining: u32,
        execution: u64,
        terms: Terms,
    },
    Top {
        time: u32,
        ask: u64,
        askvolume: u32,
        bid: u64,
        bidvolume: u32,
        unsolicited: u8,
    },
    Trade {
        time: u32,
        side: u8,
        quantity: u32,
        price: u64,
        execution: u64,
        reserved: u64,
    },
    // Imbalance and every unlisted type: the type alone.
    Other(u8),
}

#[derive(Clone, Copy)]
pub struct Message {
    pub id: [u8; 14],
    pub symbol: [u8; 14],
    pub firm: [u8; 4],
    pub body: Body,
}
