// The refusals, each with its number.
//
// specs/Refusals.antt has the number of each and when it is given. What a call answers is `Ok` with what was asked for,
// or `Err` with the refusal; a host that takes numbers asks for it by `number`.
#![tactic(auto)]

ghost use Rattle.std.specs.Prelude.{◌≡◌, ◌++◌, codes, decimal, Some};
ghost use Rattle.refusals.specs.Refusals.{number_of, refusal_in, Decodes};

use std::error::Error;
use std::fmt;

#[derive(Clone, Copy, Debug, PartialEq, Eq)]
pub enum Refusal {
    // Of a packet: its length, its header, its messages, and its numbers.
    TooShort,
    TooLong,
    WrongSize,
    ReservedFlag,
    BadHeartbeat,
    NoMessages,
    BadMessage,
    PastLastNumber,
    TooFarAhead,
    Differs,
    // Of a buffer.
    NoRoom,
    // Of a question.
    BadQuestion,
    NotThere,
    // Of a message or a header that is read or written.
    RuleBroken,
}

// A number that no refusal has.
#[derive(Clone, Copy, Debug, PartialEq, Eq)]
pub struct NoRefusal(pub u64);

impl Refusal {
    pub fn number(self) -> u8
        ensures { result ≡ number_of self }
    {
        match self {
            Refusal::TooShort => 1,
            Refusal::TooLong => 2,
            Refusal::WrongSize => 3,
            Refusal::ReservedFlag => 4,
            Refusal::BadHeartbeat => 5,
            Refusal::NoMessages => 6,
            Refusal::BadMessage => 7,
            Refusal::PastLastNumber => 8,
            Refusal::TooFarAhead => 9,
            Refusal::Differs => 10,
            Refusal::NoRoom => 11,
            Refusal::BadQuestion => 12,
            Refusal::NotThere => 13,
            Refusal::RuleBroken => 14,
        }
    }
}

impl TryFrom<u64> for Refusal {
    type Error = NoRefusal;

    ghost try_from_gives = { Decodes };

    fn try_from(number: u64) -> Result<Self, NoRefusal> {
        match number {
            1 => Ok(Refusal::TooShort),
            2 => Ok(Refusal::TooLong),
            3 => Ok(Refusal::WrongSize),
            4 => Ok(Refusal::ReservedFlag),
            5 => Ok(Refusal::BadHeartbeat),
            6 => Ok(Refusal::NoMessages),
            7 => Ok(Refusal::BadMessage),
            8 => Ok(Refusal::PastLastNumber),
            9 => Ok(Refusal::TooFarAhead),
            10 => Ok(Refusal::Differs),
            11 => Ok(Refusal::NoRoom),
            12 => Ok(Refusal::BadQuestion),
            13 => Ok(Refusal::NotThere),
            14 => Ok(Refusal::RuleBroken),
            _ => Err(NoRefusal(number)),
        }
    }
}

// Printed as its number.
impl fmt::Display for Refusal {
    ghost output = { λ r. Some (decimal (number_of r)) };

    fn fmt<W: fmt::Write>(&self, f: &mut fmt::Formatter<W>) -> fmt::Result {
        write!(f, "{}", self.number())
    }
}

impl fmt::Display for NoRefusal {
    ghost output = { λ n. Some (codes "no refusal has number " ++ decimal n.0) };

    fn fmt<W: fmt::Write>(&self, f: &mut fmt::Formatter<W>) -> fmt::Result {
        write!(f, "no refusal has number {}", self.0)
    }
}

impl Error for Refusal {}

impl Error for NoRefusal {}

// The number of an answer's refusal, 0 where there is none.
pub fn number_in<T>(answer: &Result<T, Refusal>) -> u8
    ensures { result ≡ refusal_in answer.now }
{
    match answer {
        Ok(_) => 0,
        Err(refusal) => refusal.number(),
    }
}
