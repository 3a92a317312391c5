// Parts: the message of a type that stands in bytes. No host needs them.
ghost use Rattle.std.specs.Prelude.{false, ◌≡◌, length};
ghost use Rattle.message.specs.Row.{bare, fields_of};
ghost use Rattle.message.specs.Table.{too_short};

use message::{Body, Kind, Message};

// A message of which only the type is known.
pub fn plain(kind: u8) -> Message
    ensures { result ≡ bare (Body.Other kind) }
{
    Message::bare(Body::Other(kind))
}

// The message of a type that stands in bytes; the type alone where it is not opened.
#[tactic(auto, using(message::proofs::Listed::unlisted_fields), unfolding(message::specs::Table::payload_of, message::specs::Row::fields_of, message::specs::Row::message_of, message::specs::Layouts::layout_of))]
pub fn fields(s: &[u8], kind: u8) -> Message
    requires { too_short kind (length s.now) ≡ false }
    ensures { result ≡ fields_of kind s.now }
{
    let Ok(listed) = Kind::try_from(kind) else {
        return plain(kind);
    };
    match listed {
        Kind::Security => Message::from(message_layouts::security(s)),
        Kind::SpinStart => Message::from(message_layouts::spin_start(s)),
        Kind::SpinEnd => Message::from(message_layouts::spin_end(s)),
        Kind::TradingSession => Message::from(message_layouts::trading_session(s)),
        Kind::Add => Message::from(message_layouts::add(s)),
        Kind::Update => Message::from(message_layouts::update(s)),
        Kind::Delete => Message::from(message_layouts::named(s)),
        Kind::Execution => Message::from(message_layouts::execution(s)),
        Kind::Priced => Message::from(message_layouts::priced(s)),
        Kind::Top => Message::from(message_layouts::top(s)),
        Kind::Trade => Message::from(message_layouts::trade(s)),
        Kind::Imbalance => plain(kind),
    }
}
