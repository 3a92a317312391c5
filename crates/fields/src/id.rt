// An order id's value, and its rule.
ghost use Rattle.std.specs.Prelude.{◌≡◌};
ghost use Rattle.fields.specs.Id.{good_id, id_answer};

use crate::parts::{NONE, number};
use refusals::Refusal;

// The value, or 12 where the id breaks its rule.
pub fn value(id: [u8; 14]) -> Result<u64, Refusal>
    ensures { result ≡ id_answer id }
{
    let number = number(id);
    if number == NONE {
        return Err(Refusal::BadQuestion);
    }
    Ok(number)
}

pub fn good_id(id: [u8; 14]) -> bool
    ensures { result ≡ good_id id }
{
    value(id).is_ok()
}
