// Parts: the field rules of a whole message. Each function answers the offset of the first field that
// breaks its rule, if one does. Every test is worked out, so the code stays straight. Of an id
// they take whether it keeps its rule: who has its value knows that already.
#![tactic(auto)]

ghost use Rattle.std.specs.Prelude.{◌≡◌, [], ◌∷◌, map, ◌+◌, ◌<◌, cond, Some};
ghost use Rattle.fields.specs.Rules.{good_symbol, good_side, good_trade_side, good_quantity, good_price, good_inside_price, good_unsolicited, good_session};
ghost use Rattle.message.specs.Row.{price_of, type_of_terms};
ghost use Rattle.message.specs.Rules.{broken_by, broken_of, good_message, number};
ghost use Rattle.message_rules.specs.Offsets.{offset_told};

use fields::id::good_id;
use fields_rules::{
    good_inside_price, good_price, good_quantity, good_session, good_side, good_symbol,
    good_trade_side, good_unsolicited,
};
use message::layouts::Deal;
use message::{Body, Message, Terms};

// Where the field at `at` keeps its rule, what the fields behind it answer.
fn broken_or(kept: bool, at: u8, behind: Option<u8>) -> Option<u8>
    ensures { result ≡ cond kept behind (Some at) }
{
    if kept { behind } else { Some(at) }
}

pub fn trading_session(session: u8) -> Option<u8>
    ensures { result ≡ offset_told (broken_by 20 (good_session session ∷ [])) }
{
    broken_or(good_session(session), 11, None)
}

// What an Order Add offers and a Trade exchanged, from the quantity on, which stands at `at`: of the side
// before it each has a rule of its own.
fn dealt(at: u8, deal: &Deal, behind: Option<u8>) -> Option<u8>
    requires { at + 18 < 256 }
    ensures { result ≡ cond (good_quantity deal.now.quantity) (cond (good_symbol deal.now.symbol) (cond (good_price deal.now.price) behind (Some (at + 18))) (Some (at + 4))) (Some at) }
{
    let priced = broken_or(good_price(deal.price), at + 18, behind);
    let about = broken_or(good_symbol(deal.symbol), at + 4, priced);
    broken_or(good_quantity(deal.quantity), at, about)
}

pub fn add(named: bool, deal: &Deal, unsolicited: u8) -> Option<u8>
    ensures { result ≡ offset_told (broken_by 21 (named ∷ good_side deal.now.side ∷ good_quantity deal.now.quantity ∷ good_symbol deal.now.symbol ∷ good_price deal.now.price ∷ good_unsolicited unsolicited ∷ [])) }
{
    let told = broken_or(good_unsolicited(unsolicited), 52, None);
    let behind = dealt(22, deal, told);
    let sided = broken_or(good_side(deal.side), 21, behind);
    broken_or(named, 7, sided)
}

pub fn update(named: bool, quantity: u32, price: u64) -> Option<u8>
    ensures { result ≡ offset_told (broken_by 22 (named ∷ good_quantity quantity ∷ good_price price ∷ [])) }
{
    let priced = broken_or(good_price(price), 25, None);
    let sized = broken_or(good_quantity(quantity), 21, priced);
    broken_or(named, 7, sized)
}

pub fn delete(named: bool) -> Option<u8>
    ensures { result ≡ offset_told (broken_by 23 (named ∷ [])) }
{
    broken_or(named, 7, None)
}

pub fn execution(named: bool, executed: u32) -> Option<u8>
    ensures { result ≡ offset_told (broken_by 24 (named ∷ good_quantity executed ∷ [])) }
{
    let sized = broken_or(good_quantity(executed), 21, None);
    broken_or(named, 7, sized)
}

pub fn priced(named: bool, executed: u32, price: u64) -> Option<u8>
    ensures { result ≡ offset_told (broken_by 25 (named ∷ good_quantity executed ∷ good_price price ∷ [])) }
{
    let priced = broken_or(good_price(price), 37, None);
    let sized = broken_or(good_quantity(executed), 21, priced);
    broken_or(named, 7, sized)
}

pub fn top(symbol: [u8; 14], ask: u64, bid: u64, unsolicited: u8) -> Option<u8>
    ensures { result ≡ offset_told (broken_by 26 (good_symbol symbol ∷ good_inside_price ask ∷ good_inside_price bid ∷ good_unsolicited unsolicited ∷ [])) }
{
    let told = broken_or(good_unsolicited(unsolicited), 45, None);
    let bidden = broken_or(good_inside_price(bid), 33, told);
    let asked = broken_or(good_inside_price(ask), 21, bidden);
    broken_or(good_symbol(symbol), 7, asked)
}

pub fn trade(deal: &Deal) -> Option<u8>
    ensures { result ≡ offset_told (broken_by 27 (good_trade_side deal.now.side ∷ good_quantity deal.now.quantity ∷ good_symbol deal.now.symbol ∷ good_price deal.now.price ∷ [])) }
{
    let behind = dealt(8, deal, None);
    broken_or(good_trade_side(deal.side), 7, behind)
}

// An execution, at the published price or at its own.
fn of_execution(named: bool, executed: u32, terms: Terms) -> Option<u8>
    ensures { result ≡ offset_told (broken_by (type_of_terms terms) (named ∷ good_quantity executed ∷ map (number good_price) (price_of terms))) }
{
    match terms {
        Terms::Published => execution(named, executed),
        Terms::Own(price) => priced(named, executed, price),
    }
}

pub fn broken(message: Message) -> Option<u8>
    ensures { result ≡ offset_told (broken_of message) }
{
    let id = message.id;
    let symbol = message.symbol;
    let body = message.body;
    match body {
        Body::Security { .. } => None,
        Body::SpinStart { .. } => None,
        Body::SpinEnd { .. } => None,
        Body::TradingSession { session, .. } => trading_session(session),
        Body::Add {
            side,
            quantity,
            price,
            unsolicited,
            ..
        } => {
            let deal = Deal {
                side,
                quantity,
                symbol,
                price,
            };
            add(good_id(id), &deal, unsolicited)
        }
        Body::Update {
            quantity,
            price,
            ..
        } => update(good_id(id), quantity, price),
        Body::Delete { .. } => delete(good_id(id)),
        Body::Execution {
            executed,
            terms,
            ..
        } => of_execution(good_id(id), executed, terms),
        Body::Top {
            ask,
            bid,
            unsolicited,
            ..
        } => top(symbol, ask, bid, unsolicited),
        Body::Trade {
            side,
            quantity,
            price,
            ..
        } => {
            let deal = Deal {
                side,
                quantity,
                symbol,
                price,
            };
            trade(&deal)
        }
        Body::Other(_) => None,
    }
}

// No field rule is broken.
pub fn good(message: Message) -> bool
    ensures { result ≡ good_message message }
{
    broken(message).is_none()
}
