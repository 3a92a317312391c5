// What is to be done in the tables.
ghost use Rattle.std.specs.Prelude.{◌≡◌};
ghost use Rattle.book.specs.Reasons.{reason_number};

// Why a message faults (specs/Applying.antt says when).
#[derive(Clone, Copy, Debug, PartialEq, Eq)]
pub enum Reason {
    Unlisted,
    RuleBroken,
    AlreadyLive,
    OrdersFull,
    NotLive,
    ExecutedTooMuch,
    WrongRemaining,
    InsidesFull,
}

impl Reason {
    pub fn number(self) -> u8
        ensures { result ≡ reason_number self }
    {
        match self {
            Reason::Unlisted => 1,
            Reason::RuleBroken => 2,
            Reason::AlreadyLive => 3,
            Reason::OrdersFull => 4,
            Reason::NotLive => 5,
            Reason::ExecutedTooMuch => 6,
            Reason::WrongRemaining => 7,
            Reason::InsidesFull => 8,
        }
    }
}

#[derive(Clone, Copy)]
pub enum Effect {
    // The order goes behind the last one.
    Put,
    // The order at a place has these shares and this price.
    Replace(usize, u32, u64),
    Remove(usize),
    // The inside takes the place of the one that its symbol has.
    Renew(usize),
    // The inside goes behind the last one.
    Enter,
    Record(u8),
    Unchanged,
    Fault(Reason),
    // A type that is not in the table, where that is no fault.
    CountApart,
}
