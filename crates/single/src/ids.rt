// One id.
ghost use Rattle.std.specs.Prelude.{◌≡◌};
ghost use Rattle.fields.specs.Id.{id_answer};
ghost use Rattle.refusals.specs.Refusals.{refusal_in};
ghost use Rattle.single.specs.Told.{number_told};

use crate::telling::{number, tell};
use fields::id;

// The value of an id.
pub fn value(text: &[u8; 14], told: &mut [u64; 1]) -> u64
    ensures refusal { result ≡ refusal_in (id_answer text.now) }
    ensures told { told.new ≡ number_told (id_answer text.now) told.old }
{
    tell(told, id::value(*text).map(number))
}
