// Writing one message at a place in a lent buffer.
ghost use Rattle.std.specs.Prelude.{[], ◌∷◌, ◌≡◌, ◌+◌, ◌≤◌, length};
ghost use Rattle.wire.specs.Layout.{number_is, put_row, width_of};
ghost use Rattle.message.specs.Layouts as layouts;
ghost use Rattle.message.specs.Types.{type_number, type_or_none};
ghost use Rattle.message_write.specs.Writing.{answer_of, buffer_after, message_size, write_of, written_type};

use message::{Body, Kind, Message};
use message_put::put;
use refusals::Refusal;

// The type that a message is written with, if it is written.
#[tactic(auto, using(crate::proofs::ByKind::kind_type))]
fn kind_of(message: Message) -> Option<Kind>
    ensures { type_or_none result ≡ written_type message }
{
    match message.body {
        Body::Security { .. } => Some(Kind::Security),
        Body::SpinStart { .. } => Some(Kind::SpinStart),
        Body::SpinEnd { .. } => Some(Kind::SpinEnd),
        Body::TradingSession { .. } => Some(Kind::TradingSession),
        Body::Add { .. } => Some(Kind::Add),
        Body::Update { .. } => Some(Kind::Update),
        Body::Delete { .. } => Some(Kind::Delete),
        Body::Execution { terms, .. } => Some(Kind::from(terms)),
        Body::Top { .. } => Some(Kind::Top),
        Body::Trade { .. } => Some(Kind::Trade),
        Body::Other(_) => None,
    }
}

#[tactic(auto, unfolding(crate::specs::Writing::message_size))]
fn size_of(kind: Kind) -> usize
    ensures { result ≡ message_size (type_number kind) }
{
    message::HEADER + kind.payload() as usize
}

// What writing a message of a type that is written answers for n bytes of buffer. The place may be any number: no sum
// is made with it.
fn judge(message: Message, kind: Kind, n: usize, at: usize) -> Result<usize, Refusal>
    requires { type_number kind ≡ written_type message }
    ensures { result ≡ answer_of message n at }
{
    if message_rules::good(message) {
        let size = size_of(kind);
        if n < at {
            return Err(Refusal::NoRoom);
        }
        if n - at < size {
            return Err(Refusal::NoRoom);
        }
        return Ok(size);
    }
    Err(Refusal::RuleBroken)
}

// MessageSize and MessageType.
#[tactic(auto, using(wire::proofs::Layouts::puts_row))]
fn head(buf: &mut [u8], at: usize, size: u16, kind: u8)
    requires { at + width_of layouts.head ≤ length buf.old }
    ensures { buf.new ≡ put_row layouts.head (number_is size ∷ number_is kind ∷ []) buf.old at }
{
    wire::put_number(buf, at, size);
    wire::put_number(buf, at + 2, kind);
}

// The call: every message, every buffer and every place have their answer. A text that the kind has
// not is not looked at, and `Body::Other` is not written, whatever type it names.
pub fn write(message: Message, buf: &mut [u8], at: usize) -> Result<usize, Refusal>
    ensures answer { result ≡ write_of message buf.old at }
    ensures buffer { buf.new ≡ buffer_after message buf.old at }
{
    let Some(kind) = kind_of(message) else {
        return Err(Refusal::RuleBroken);
    };
    let size = judge(message, kind, buf.len(), at)?;
    head(buf, at, size as u16, kind.number());
    put::fields(message, buf, at + message::HEADER);
    Ok(size)
}
