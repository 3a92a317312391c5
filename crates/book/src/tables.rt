// The records of the tables. A place that holds nothing is all zero.
ghost use Rattle.std.specs.Prelude.{◌≡◌};
ghost use Rattle.book.specs.Tables.{no_order, no_inside};

// A live order. The fields stand so that no padding comes between them.
#[repr(C)]
#[derive(Clone, Copy)]
pub struct Order {
    pub id: u64,
    pub price: u64,
    pub shares: u32,
    pub firm: [u8; 4],
    pub symbol: [u8; 14],
    pub side: u8,
    pub unsolicited: u8,
}

// The seven fields of a Top of Book.
#[derive(Clone, Copy)]
pub struct Inside {
    pub ask: u64,
    pub bid: u64,
    pub time: u64,
    pub askvolume: u64,
    pub bidvolume: u64,
    pub symbol: [u8; 14],
    pub unsolicited: u8,
}

// The first fault's number and reason, and how many messages faulted.
#[derive(Clone, Copy)]
pub struct Faults {
    pub number: u64,
    pub count: u64,
    pub reason: u64,
}

// The rule that an opening chooses for types that are not in the table: by default such a message is applied without
// effect and counted apart, under the strict rule it is a fault.
#[derive(Clone, Copy)]
pub enum OpeningRule {
    Default,
    Strict,
}

// How many orders can be live, and how many insides held: as many as the indexes have places.
pub const ORDERS: usize = book_index::PLACES;

pub const INSIDES: usize = book_index::PAIRS;

// Parts: what a place holds that is not used. A derived Default says of the bytes of an array one by one that each is 0:
// every caller would have to join them again to the equation that these promise.
pub fn no_order() -> Order
    ensures { result ≡ no_order }
{
    Order {
        id: 0,
        price: 0,
        shares: 0,
        firm: [0u8; 4],
        symbol: [0u8; 14],
        side: 0,
        unsolicited: 0,
    }
}

pub fn no_inside() -> Inside
    ensures { result ≡ no_inside }
{
    Inside {
        ask: 0,
        bid: 0,
        time: 0,
        askvolume: 0,
        bidvolume: 0,
        symbol: [0u8; 14],
        unsolicited: 0,
    }
}
