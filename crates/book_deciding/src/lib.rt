// Parts: what a message does, decided on small values before anything is written. Each function is told what it looks at, and
// promises the effect for all that can be seen of the tables and agrees with it.
#![tactic(auto)]

ghost use Rattle.std.specs.Prelude.{◌≡◌, true, false, ◌&&◌, ◌≤◌, leb, length};
ghost use Rattle.message.specs.Layouts.{type_in};
ghost use Rattle.message.specs.Row.{fields_of};
ghost use Rattle.message.specs.Whole.{Whole};
ghost use Rattle.book.specs.Applying.{Keyed, Naming, Seen, message_in, names, effect_of, unlisted_under};

use book::deciding::{Effect, Reason};
use book::tables::OpeningRule;
use book_judging::{added, deleted, executed, kept, shown, updated};
use fields::parts::is_value;
use message::Kind;

pub mod reading;

// 21, an Order Add.
pub fn add(bytes: &[u8], key: u64, order: Option<usize>, live: usize) -> Effect
    requires { Naming 55 bytes.now key }
    ensures { (seen : Seen) → seen.order ≡ order → seen.live ≡ live → result ≡ effect_of seen (fields_of 21 bytes.now) }
{
    let fields = message_layouts::add(bytes);
    let broken = message_rules::add(is_value(key), &fields.deal, fields.unsolicited);
    added(broken.is_none(), order, live)
}

fn update(bytes: &[u8], key: u64, order: Option<usize>) -> Effect
    requires { Naming 35 bytes.now key }
    ensures { (seen : Seen) → seen.order ≡ order → result ≡ effect_of seen (fields_of 22 bytes.now) }
{
    let fields = message_layouts::update(bytes);
    let broken = message_rules::update(is_value(key), fields.quantity, fields.price);
    updated(broken.is_none(), order, fields.quantity, fields.price)
}

fn delete(bytes: &[u8], key: u64, order: Option<usize>) -> Effect
    requires { Naming 21 bytes.now key }
    ensures { (seen : Seen) → seen.order ≡ order → result ≡ effect_of seen (fields_of 23 bytes.now) }
{
    let broken = message_rules::delete(is_value(key));
    deleted(broken.is_none(), order)
}

fn execution(bytes: &[u8], key: u64, order: Option<usize>, shares: u32, price: u64) -> Effect
    requires { Naming 37 bytes.now key }
    ensures { (seen : Seen) → seen.order ≡ order → seen.shares ≡ shares → seen.price ≡ price → result ≡ effect_of seen (fields_of 24 bytes.now) }
{
    let fields = message_layouts::execution(bytes);
    let broken = message_rules::execution(is_value(key), fields.executed);
    executed(
        broken.is_none(),
        order,
        shares,
        price,
        fields.executed,
        fields.remaining,
    )
}

fn priced(bytes: &[u8], key: u64, order: Option<usize>, shares: u32, price: u64) -> Effect
    requires { Naming 45 bytes.now key }
    ensures { (seen : Seen) → seen.order ≡ order → seen.shares ≡ shares → seen.price ≡ price → result ≡ effect_of seen (fields_of 25 bytes.now) }
{
    let fields = message_layouts::priced(bytes);
    let broken = message_rules::priced(is_value(key), fields.execution.executed, fields.price);
    executed(
        broken.is_none(),
        order,
        shares,
        price,
        fields.execution.executed,
        fields.execution.remaining,
    )
}

// 22 to 25, with the shares and the price of the order that is named.
pub fn change(bytes: &[u8], key: u64, order: Option<usize>, shares: u32, price: u64) -> Effect
    requires { Keyed bytes.now key × (names (type_in bytes.now) ≡ true) }
    ensures { (seen : Seen) → seen.order ≡ order → seen.shares ≡ shares → seen.price ≡ price → result ≡ effect_of seen (message_in bytes.now) }
{
    let kind = Kind::try_from(wire::number_at::<u8>(bytes, 2)).unwrap();
    match kind {
        Kind::Update => update(bytes, key, order),
        Kind::Delete => delete(bytes, key, order),
        Kind::Execution => execution(bytes, key, order, shares, price),
        _ => priced(bytes, key, order, shares, price),
    }
}

fn session(bytes: &[u8]) -> Effect
    requires { 12 ≤ length bytes.now }
    ensures { (seen : Seen) → result ≡ effect_of seen (fields_of 20 bytes.now) }
{
    let fields = message_layouts::trading_session(bytes);
    let broken = message_rules::trading_session(fields.session);
    kept(broken.is_none(), Effect::Record(fields.session))
}

fn top(bytes: &[u8], inside: Option<usize>, held: usize) -> Effect
    requires { 46 ≤ length bytes.now }
    ensures { (seen : Seen) → seen.inside ≡ inside → seen.held ≡ held → result ≡ effect_of seen (fields_of 26 bytes.now) }
{
    let fields = message_layouts::top(bytes);
    let broken = message_rules::top(
        fields.symbol,
        fields.ask.price,
        fields.bid.price,
        fields.unsolicited,
    );
    shown(broken.is_none(), inside, held)
}

fn trade(bytes: &[u8]) -> Effect
    requires { 50 ≤ length bytes.now }
    ensures { (seen : Seen) → result ≡ effect_of seen (fields_of 27 bytes.now) }
{
    let fields = message_layouts::trade(bytes);
    let broken = message_rules::trade(&fields.deal);
    kept(broken.is_none(), Effect::Unchanged)
}

// A type that is not in the table.
fn unlisted(rule: OpeningRule) -> Effect
    ensures { result ≡ unlisted_under rule }
{
    match rule {
        OpeningRule::Default => Effect::CountApart,
        OpeningRule::Strict => Effect::Fault(Reason::Unlisted),
    }
}

// Every other type: none of them touches an order.
pub fn tell(bytes: &[u8], inside: Option<usize>, held: usize, rule: OpeningRule) -> Effect
    requires { Whole bytes.now × ((leb 21 (type_in bytes.now) && leb (type_in bytes.now) 25) ≡ false) }
    ensures { (seen : Seen) → seen.inside ≡ inside → seen.held ≡ held → seen.rule ≡ rule → result ≡ effect_of seen (message_in bytes.now) }
{
    let Ok(kind) = Kind::try_from(wire::number_at::<u8>(bytes, 2)) else {
        return unlisted(rule);
    };
    match kind {
        Kind::TradingSession => session(bytes),
        Kind::Top => top(bytes, inside, held),
        Kind::Trade => trade(bytes),
        _ => Effect::Unchanged,
    }
}
