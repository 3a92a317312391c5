// Parts: the one function a type that reads its fields, in the order of its layout. Each asks that the bytes of the
// layout are there; the header's 3 bytes stand before them.
#![tactic(auto)]

ghost use Rattle.std.specs.Prelude.{◌≡◌, ◌+◌, ◌≤◌, length};
ghost use Rattle.wire.specs.Layout.{decode};
ghost use Rattle.message.specs.Layouts as layouts;
ghost use Rattle.message.specs.Row.{row_in, named_in, deal_in, quote_in, security_in, spin_start_in, spin_end_in, trading_session_in, add_in, update_in, execution_in, priced_in, top_in, trade_in};

use message::layouts::{
    AddFields, Deal, ExecutionFields, Named, PricedFields, Quote, SecurityFields, SpinEndFields,
    SpinStartFields, TopFields, TradeFields, TradingSessionFields, UpdateFields,
};

pub fn security(s: &[u8]) -> SecurityFields
    requires { 36 ≤ length s.now }
    ensures { result ≡ security_in (row_in layouts.security s.now) }
{
    SecurityFields {
        symbol: wire::text_at(s, 3),
        updated: wire::number_at(s, 17),
        action: wire::number_at(s, 25),
        class: wire::number_at(s, 26),
        security: wire::number_at(s, 27),
        flags: wire::number_at(s, 31),
        tier: wire::number_at(s, 33),
        reporting: wire::number_at(s, 34),
        status: wire::number_at(s, 35),
    }
}

pub fn spin_start(s: &[u8]) -> SpinStartFields
    requires { 16 ≤ length s.now }
    ensures { result ≡ spin_start_in (row_in layouts.spin_start s.now) }
{
    SpinStartFields {
        spin: wire::number_at(s, 3),
        time: wire::number_at(s, 4),
        last: wire::number_at(s, 12),
    }
}

pub fn spin_end(s: &[u8]) -> SpinEndFields
    requires { 20 ≤ length s.now }
    ensures { result ≡ spin_end_in (row_in layouts.spin_end s.now) }
{
    SpinEndFields {
        spin: wire::number_at(s, 3),
        count: wire::number_at(s, 4),
        time: wire::number_at(s, 8),
        last: wire::number_at(s, 16),
    }
}

pub fn trading_session(s: &[u8]) -> TradingSessionFields
    requires { 12 ≤ length s.now }
    ensures { result ≡ trading_session_in (row_in layouts.trading_session s.now) }
{
    TradingSessionFields {
        time: wire::number_at(s, 3),
        session: wire::number_at(s, 11),
    }
}

// What 21 to 25 begin with, which is all of an Order Delete.
pub fn named(s: &[u8]) -> Named
    requires { 21 ≤ length s.now }
    ensures { result ≡ named_in (row_in layouts.delete s.now) }
{
    Named {
        time: wire::number_at(s, 3),
        id: wire::text_at(s, 7),
    }
}

pub fn update(s: &[u8]) -> UpdateFields
    requires { 35 ≤ length s.now }
    ensures { result ≡ update_in (row_in layouts.update s.now) }
{
    UpdateFields {
        named: named(s),
        quantity: wire::number_at(s, 21),
        price: wire::number_at(s, 25),
        flags: wire::number_at(s, 33),
    }
}

pub fn execution(s: &[u8]) -> ExecutionFields
    requires { 37 ≤ length s.now }
    ensures { result ≡ execution_in (row_in layouts.execution s.now) }
{
    ExecutionFields {
        named: named(s),
        executed: wire::number_at(s, 21),
        remaining: wire::number_at(s, 25),
        execution: wire::number_at(s, 29),
    }
}

// An execution, then its own price.
pub fn priced(s: &[u8]) -> PricedFields
    requires { 45 ≤ length s.now }
    ensures { result ≡ priced_in (row_in layouts.priced s.now) }
{
    PricedFields {
        execution: execution(s),
        price: wire::number_at(s, 37),
    }
}

fn deal(s: &[u8], at: usize) -> Deal
    requires { at + 27 ≤ length s.now }
    ensures { result ≡ deal_in (decode layouts.deal at s.now) }
{
    Deal {
        side: wire::number_at(s, at),
        quantity: wire::number_at(s, at + 1),
        symbol: wire::text_at(s, at + 5),
        price: wire::number_at(s, at + 19),
    }
}

pub fn add(s: &[u8]) -> AddFields
    requires { 55 ≤ length s.now }
    ensures { result ≡ add_in (row_in layouts.add s.now) }
{
    AddFields {
        named: named(s),
        deal: deal(s, 21),
        firm: wire::text_at(s, 48),
        unsolicited: wire::number_at(s, 52),
        flags: wire::number_at(s, 53),
    }
}

pub fn trade(s: &[u8]) -> TradeFields
    requires { 50 ≤ length s.now }
    ensures { result ≡ trade_in (row_in layouts.trade s.now) }
{
    TradeFields {
        time: wire::number_at(s, 3),
        deal: deal(s, 7),
        execution: wire::number_at(s, 34),
        reserved: wire::number_at(s, 42),
    }
}

fn quote(s: &[u8], at: usize) -> Quote
    requires { at + 12 ≤ length s.now }
    ensures { result ≡ quote_in (decode layouts.quote at s.now) }
{
    Quote {
        price: wire::number_at(s, at),
        volume: wire::number_at(s, at + 8),
    }
}

pub fn top(s: &[u8]) -> TopFields
    requires { 46 ≤ length s.now }
    ensures { result ≡ top_in (row_in layouts.top s.now) }
{
    TopFields {
        time: wire::number_at(s, 3),
        symbol: wire::text_at(s, 7),
        ask: quote(s, 21),
        bid: quote(s, 33),
        unsolicited: wire::number_at(s, 45),
    }
}
