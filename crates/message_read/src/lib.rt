// Reading one message from exactly its lent bytes: for every byte string, of any length, as document 01 says: 7, then 14,
// else the fields (message/specs/Reading).
#![tactic(auto)]

ghost use Rattle.std.specs.Prelude.{◌≡◌};
ghost use Rattle.message.specs.Reading.{read_of};

use message::{Message, table};
use refusals::Refusal;

pub mod parts;

// The call: every byte string has its answer.
pub fn read(s: &[u8]) -> Result<Message, Refusal>
    ensures { result ≡ read_of s.now }
{
    let n = s.len();
    if n < message::HEADER {
        return Err(Refusal::BadMessage);
    }
    if message::LONGEST < n {
        return Err(Refusal::BadMessage);
    }
    let size = wire::number_at::<u16>(s, 0);
    if size as usize != n {
        return Err(Refusal::BadMessage);
    }
    let kind = wire::number_at::<u8>(s, 2);
    if table::sizes().too_short(kind, n) {
        return Err(Refusal::BadMessage);
    }
    let message = parts::fields(s, kind);
    if message_rules::good(message) {
        return Ok(message);
    }
    Err(Refusal::RuleBroken)
}
