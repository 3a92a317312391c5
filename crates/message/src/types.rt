// The listed types and their numbers.
ghost use Rattle.std.specs.Prelude.{◌≡◌};
ghost use Rattle.message.specs.Row.{type_of_terms};
ghost use Rattle.message.specs.Table.{payload_of};
ghost use Rattle.message.specs.Types.{type_number, Names};

use crate::kinds::Terms;
use crate::table::PAYLOAD;

// An execution has a type of its own where it has a price of its own.
#[derive(Clone, Copy, Debug, PartialEq, Eq)]
pub enum Kind {
    Security,
    SpinStart,
    SpinEnd,
    TradingSession,
    Add,
    Update,
    Delete,
    Execution,
    Priced,
    Top,
    Trade,
    Imbalance,
}

// A number that no listed type has.
#[derive(Clone, Copy, Debug, PartialEq, Eq)]
pub struct NoKind(pub u8);

impl Kind {
    pub fn number(self) -> u8
        ensures { result ≡ type_number self }
    {
        match self {
            Kind::Security => 9,
            Kind::SpinStart => 11,
            Kind::SpinEnd => 12,
            Kind::TradingSession => 20,
            Kind::Add => 21,
            Kind::Update => 22,
            Kind::Delete => 23,
            Kind::Execution => 24,
            Kind::Priced => 25,
            Kind::Top => 26,
            Kind::Trade => 27,
            Kind::Imbalance => 28,
        }
    }

    // How many bytes its fields take.
    pub fn payload(self) -> u8
        ensures { result ≡ payload_of (type_number self) }
    {
        PAYLOAD[self.number() as usize]
    }
}

impl TryFrom<u8> for Kind {
    type Error = NoKind;

    ghost try_from_gives = { Names };

    fn try_from(number: u8) -> Result<Self, NoKind> {
        match number {
            9 => Ok(Kind::Security),
            11 => Ok(Kind::SpinStart),
            12 => Ok(Kind::SpinEnd),
            20 => Ok(Kind::TradingSession),
            21 => Ok(Kind::Add),
            22 => Ok(Kind::Update),
            23 => Ok(Kind::Delete),
            24 => Ok(Kind::Execution),
            25 => Ok(Kind::Priced),
            26 => Ok(Kind::Top),
            27 => Ok(Kind::Trade),
            28 => Ok(Kind::Imbalance),
            _ => Err(NoKind(number)),
        }
    }
}

impl From<Terms> for Kind {
    ghost from_gives = { λ terms kind. type_number kind ≡ type_of_terms terms };

    fn from(terms: Terms) -> Kind {
        match terms {
            Terms::Published => Kind::Execution,
            Terms::Own(_) => Kind::Priced,
        }
    }
}
