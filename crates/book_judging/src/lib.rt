// Parts: what the field rules and the look-ups come to: the first fault that holds, or the change.
#![tactic(auto)]

ghost use Rattle.std.specs.Prelude.{◌≡◌, cond, not, ◌&&◌, [], ◌∷◌, ◌-◌, eqb, leb, ltb};
ghost use Rattle.wire.specs.Choice.{first_of};
ghost use Rattle.book.specs.Lookup.{is_at, place_found};
ghost use Rattle.book.specs.Applying.{execution_of};

use book::deciding::{Effect, Reason};
use book::tables::{INSIDES, ORDERS};

// Fault 2, or the change.
pub fn kept(good: bool, change: Effect) -> Effect
    ensures { result ≡ first_of ((not good, Effect.Fault Reason.RuleBroken) ∷ []) change }
{
    if good {
        change
    } else {
        Effect::Fault(Reason::RuleBroken)
    }
}

// 2, 3, 4, or the Add.
pub fn added(good: bool, order: Option<usize>, live: usize) -> Effect
    ensures { result ≡ first_of ((not good, Effect.Fault Reason.RuleBroken) ∷ (is_at order, Effect.Fault Reason.AlreadyLive) ∷ (leb 256 live, Effect.Fault Reason.OrdersFull) ∷ []) Effect.Put }
{
    if !good {
        return Effect::Fault(Reason::RuleBroken);
    }
    if order.is_some() {
        return Effect::Fault(Reason::AlreadyLive);
    }
    if ORDERS <= live {
        Effect::Fault(Reason::OrdersFull)
    } else {
        Effect::Put
    }
}

// 2, 5, or the Update.
pub fn updated(good: bool, order: Option<usize>, shares: u32, price: u64) -> Effect
    ensures { result ≡ first_of ((not good, Effect.Fault Reason.RuleBroken) ∷ (not (is_at order), Effect.Fault Reason.NotLive) ∷ []) (Effect.Replace (place_found order) shares price) }
{
    if !good {
        return Effect::Fault(Reason::RuleBroken);
    }
    let Some(place) = order else {
        return Effect::Fault(Reason::NotLive);
    };
    Effect::Replace(place, shares, price)
}

// 2, 5, or the Delete.
pub fn deleted(good: bool, order: Option<usize>) -> Effect
    ensures { result ≡ first_of ((not good, Effect.Fault Reason.RuleBroken) ∷ (not (is_at order), Effect.Fault Reason.NotLive) ∷ []) (Effect.Remove (place_found order)) }
{
    if !good {
        return Effect::Fault(Reason::RuleBroken);
    }
    let Some(place) = order else {
        return Effect::Fault(Reason::NotLive);
    };
    Effect::Remove(place)
}

// 2, 5, 6, 7, or the execution of the order that has these shares and this price.
pub fn executed(
    good: bool,
    order: Option<usize>,
    shares: u32,
    price: u64,
    executed: u32,
    remaining: u32,
) -> Effect
    ensures { result ≡ first_of ((not good, Effect.Fault Reason.RuleBroken) ∷ (not (is_at order), Effect.Fault Reason.NotLive) ∷ (ltb shares executed, Effect.Fault Reason.ExecutedTooMuch) ∷ (not (eqb remaining (shares - executed)), Effect.Fault Reason.WrongRemaining) ∷ []) (execution_of order shares price executed) }
{
    if !good {
        return Effect::Fault(Reason::RuleBroken);
    }
    let Some(place) = order else {
        return Effect::Fault(Reason::NotLive);
    };
    if shares < executed {
        return Effect::Fault(Reason::ExecutedTooMuch);
    }
    let left = shares - executed;
    if remaining != left {
        return Effect::Fault(Reason::WrongRemaining);
    }
    if left == 0 {
        return Effect::Remove(place);
    }
    Effect::Replace(place, left, price)
}

// 2, 8, or the inside.
pub fn shown(good: bool, inside: Option<usize>, held: usize) -> Effect
    ensures { result ≡ first_of ((not good, Effect.Fault Reason.RuleBroken) ∷ (not (is_at inside) && leb 64 held, Effect.Fault Reason.InsidesFull) ∷ []) (cond (is_at inside) (Effect.Renew (place_found inside)) Effect.Enter) }
{
    if !good {
        return Effect::Fault(Reason::RuleBroken);
    }
    let Some(place) = inside else {
        return if INSIDES <= held {
            Effect::Fault(Reason::InsidesFull)
        } else {
            Effect::Enter
        };
    };
    Effect::Renew(place)
}
