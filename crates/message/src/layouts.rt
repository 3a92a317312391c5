// Parts: the fields of each type in the order of its layout; `message_layouts` reads them. What several types have alike, one
// field behind the other, is a record of its own.

// What 21 to 25 begin with: when, and which order.
#[derive(Clone, Copy)]
pub struct Named {
    pub time: u32,
    pub id: [u8; 14],
}

// What an Order Add offers, and what a Trade exchanged.
#[derive(Clone, Copy)]
pub struct Deal {
    pub side: u8,
    pub quantity: u32,
    pub symbol: [u8; 14],
    pub price: u64,
}

// One side of a Top of Book.
#[derive(Clone, Copy)]
pub struct Quote {
    pub price: u64,
    pub volume: u32,
}

#[derive(Clone, Copy)]
pub struct SecurityFields {
    pub symbol: [u8; 14],
    pub updated: u64,
    pub action: u8,
    pub class: u8,
    pub security: u32,
    pub flags: u16,
    pub tier: u8,
    pub reporting: u8,
    pub status: u8,
}

#[derive(Clone, Copy)]
pub struct SpinStartFields {
    pub spin: u8,
    pub time: u64,
    pub last: u32,
}

#[derive(Clone, Copy)]
pub struct SpinEndFields {
    pub spin: u8,
    pub count: u32,
    pub time: u64,
    pub last: u32,
}

#[derive(Clone, Copy)]
pub struct TradingSessionFields {
    pub time: u64,
    pub session: u8,
}

#[derive(Clone, Copy)]
pub struct AddFields {
    pub named: Named,
    pub deal: Deal,
    pub firm: [u8; 4],
    pub unsolicited: u8,
    pub flags: u16,
}

#[derive(Clone, Copy)]
pub struct UpdateFields {
    pub named: Named,
    pub quantity: u32,
    pub price: u64,
    pub flags: u16,
}

#[derive(Clone, Copy)]
pub struct ExecutionFields {
    pub named: Named,
    pub executed: u32,
    pub remaining: u32,
    pub execution: u64,
}

#[derive(Clone, Copy)]
pub struct PricedFields {
    pub execution: ExecutionFields,
    pub price: u64,
}

#[derive(Clone, Copy)]
pub struct TopFields {
    pub time: u32,
    pub symbol: [u8; 14],
    pub ask: Quote,
    pub bid: Quote,
    pub unsolicited: u8,
}

#[derive(Clone, Copy)]
pub struct TradeFields {
    pub time: u32,
    pub deal: Deal,
    pub execution: u64,
    pub reserved: u64,
}
