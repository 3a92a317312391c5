// Messages and packets made for the cases.
ghost use Rattle.std.specs.Prelude.{◌≡◌, ◌≤◌, length};
ghost use Rattle.session.specs.Meaning.{Ruled};
ghost use Rattle.session_owned.specs.Holding.{held_by};
ghost use Rattle.examples.specs.Made.{add_of, delete_of, execution_of, id_of, message_by, named_of, no_message, symbol_of, told_of, top_of, trading_of, update_of};

use book::tables::OpeningRule;
use examples_cases::rows::{letter, number};
use message::{Body, Message, Terms};
use packet::Header;
use refusals::Refusal;
use session_owned::Owned;

// The id of the k-th order: its value is below 1,000 in base 36 with decimal digits.
pub fn id_of(k: u16) -> [u8; 14]
    ensures { result ≡ id_of k }
{
    let mut id = *b"00000000000000";
    id[9] = (48 + k / 100 % 10) as u8;
    id[10] = (48 + k / 10 % 10) as u8;
    id[11] = (48 + k % 10) as u8;
    id
}

pub fn symbol_of(k: u16) -> [u8; 14]
    ensures { result ≡ symbol_of k }
{
    let mut symbol = *b"ABCD0         ";
    symbol[5] = (65 + k / 10 % 10) as u8;
    symbol[6] = (65 + k % 10) as u8;
    symbol
}

fn add(k: u16, side: u8, quantity: u32, price: u64) -> Message
    ensures { result ≡ add_of k side quantity price }
{
    let body = Body::Add {
        time: 1,
        side,
        quantity,
        price,
        unsolicited: b'N',
        flags: 0,
    };
    let id = id_of(k);
    let symbol = *b"MSFTF         ";
    let firm = *b"ABCD";
    Message {
        id,
        symbol,
        firm,
        body,
    }
}

fn update(k: u16, quantity: u32, price: u64) -> Message
    ensures { result ≡ update_of k quantity price }
{
    let body = Body::Update {
        time: 1,
        quantity,
        price,
        flags: 0,
    };
    named(k, body)
}

fn delete(k: u16) -> Message
    ensures { result ≡ delete_of k }
{
    named(k, Body::Delete { time: 1 })
}

fn execution(k: u16, executed: u32, remaining: u32) -> Message
    ensures { result ≡ execution_of k executed remaining }
{
    let terms = Terms::Published;
    let body = Body::Execution {
        time: 1,
        executed,
        remaining,
        execution: 1,
        terms,
    };
    named(k, body)
}

fn trading(code: u8) -> Message
    ensures { result ≡ trading_of code }
{
    let body = Body::TradingSession {
        time: 1,
        session: code,
    };
    named(0, body)
}

// A message that is not written: nothing more.
pub fn none() -> Message
    ensures { result ≡ no_message }
{
    named(0, Body::Other(0))
}

fn named(k: u16, body: Body) -> Message
    ensures { result ≡ named_of k body }
{
    let id = id_of(k);
    let symbol = [0u8; 14];
    let firm = [0u8; 4];
    Message {
        id,
        symbol,
        firm,
        body,
    }
}

fn top(k: u16, ask: u64, bid: u64) -> Message
    ensures { result ≡ top_of k ask bid }
{
    let body = Body::Top {
        time: 1,
        ask,
        askvolume: 400,
        bid,
        bidvolume: 500,
        unsolicited: b'N',
    };
    let id = [0u8; 14];
    let symbol = symbol_of(k);
    let firm = [0u8; 4];
    Message {
        id,
        symbol,
        firm,
        body,
    }
}

// A message written behind those that are there; where it ends.
fn behind(buf: &mut [u8], at: usize, m: Message) -> usize
    requires { at ≤ length buf.old }
    ensures { result ≤ length buf.old }
{
    if let Ok(count) = message_write::write(m, buf, at) {
        if count <= buf.len() - at {
            return at + count;
        }
    }
    at
}

pub fn head(buf: &mut [u8], size: usize, seq: u32, flag: u8, messages: u8) {
    let header = Header {
        size: (size % 65536) as u16,
        seq,
        flag,
        messages,
        milli: 72000000,
    };
    let _ = packet::write_header(header, buf);
}

// A packet of two messages, the first under the number `seq`, or of one where the second is not
// written; how many bytes it has.
pub fn packet_of(buf: &mut [u8], seq: u32, first: Message, second: Message) -> usize
    requires { 12 ≤ length buf.old }
    ensures { result ≤ length buf.old }
{
    let one = behind(buf, 12, first);
    let both = behind(buf, one, second);
    let messages = if one < both { 2 } else { 1 };
    head(buf, both, seq, 0, messages);
    both
}

// Such a packet handed to a session.
pub fn sent(owned: &mut Owned, seq: u32, first: Message, second: Message) -> Result<u64, Refusal>
    requires { Ruled (held_by owned.old) }
    ensures { Ruled (held_by owned.new) }
{
    let mut buf = [0u8; 256];
    let size = packet_of(&mut buf, seq, first, second);
    owned.take(&buf[..size])
}

// A packet of one message with a byte changed: what no writer would write.
pub fn damaged(owned: &mut Owned, seq: u32, m: Message, at: usize, byte: u8) -> Result<u64, Refusal>
    requires { Ruled (held_by owned.old) }
    ensures { Ruled (held_by owned.new) }
{
    let mut buf = [0u8; 256];
    let size = packet_of(&mut buf, seq, m, none());
    if at < 256 {
        buf[at] = byte;
    }
    owned.take(&buf[..size])
}

// Four messages in one packet, of which each is its type and nothing more: what no writer would write.
pub fn empty(owned: &mut Owned, seq: u32, line: &[u8]) -> Result<u64, Refusal>
    requires { Ruled (held_by owned.old) }
    ensures { Ruled (held_by owned.new) }
{
    let mut buf = [0u8; 24];
    head(&mut buf, 24, seq, 0, 4);
    for k in 0..4u8 {
        let at = 12 + 3 * k as usize;
        buf[at + 1] = 3;
        buf[at + 2] = (number(line, k + 2) % 256) as u8;
    }
    owned.take(&buf)
}

pub fn beat(owned: &mut Owned, seq: u32) -> Result<u64, Refusal>
    requires { Ruled (held_by owned.old) }
    ensures { Ruled (held_by owned.new) }
{
    let mut buf = [0u8; 12];
    head(&mut buf, 12, seq, 1, 0);
    owned.take(&buf)
}

// A session opened again with so many orders, so many that wait, or so many insides, a packet each.
pub fn filled(owned: &mut Owned, kind: u8, count: u16)
    requires { Ruled (held_by owned.old) }
    ensures { Ruled (held_by owned.new) }
{
    owned.reopen(1, OpeningRule::Default);
    for k in 0..count {
        nth(owned, kind, k);
    }
}

// By the first letter of a kind: add, keep, top.
fn nth(owned: &mut Owned, kind: u8, k: u16)
    requires { Ruled (held_by owned.old) }
    ensures { Ruled (held_by owned.new) }
{
    let seq = k as u32 + 1;
    let mut buf = [0u8; 256];
    let _ = match kind {
        b'a' => sent(owned, seq, add(k, b'B', 300, 1250000), none()),
        b'k' => {
            let size = packet_of(&mut buf, seq, add(k, b'B', 300, 1250000), none());
            owned.keep(&buf[..size])
        }
        _ => sent(owned, seq, top(k, 1260000, 1250000), none()),
    };
}

// The message that five words of a line name, from one of them on: its kind, its order, a side, and
// two numbers. Where there are none, or of no such kind, it is not written.
pub fn told(line: &[u8], at: u8) -> Message
    requires { at ≤ 200 }
    ensures { result ≡ told_of line.now at }
{
    let k = (number(line, at + 1) % 1000) as u16;
    let side = letter(line, at + 2);
    let first = number(line, at + 3);
    let second = number(line, at + 4);
    named_by(letter(line, at), k, side, first, second)
}

// By the first letter of a kind: add, update, delete, executed, top, session.
fn named_by(kind: u8, k: u16, side: u8, first: u64, second: u64) -> Message
    ensures { result ≡ message_by kind k side first second }
{
    let shares = (first % 4294967296) as u32;
    match kind {
        b'a' => add(k, side, shares, second),
        b'u' => update(k, shares, second),
        b'd' => delete(k),
        b'e' => execution(k, shares, (second % 4294967296) as u32),
        b't' => top(k, first, second),
        b's' => trading((k % 256) as u8),
        _ => none(),
    }
}
