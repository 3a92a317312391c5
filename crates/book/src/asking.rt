// The best of a table: the price, the shares and the orders of a symbol and side.
ghost use Rattle.std.specs.Prelude.{◌≡◌, List, ℕ, ◌≤◌, length};
ghost use Rattle.book.specs.Lookup.{Apart};
ghost use Rattle.book.specs.Asking.{best_for, better as betterOf, Joins, is_of, Room};

use crate::lookup::Parts;
use crate::tables::Order;
use fields_rules::{good_side, good_symbol};
use refusals::Refusal;

// A price, the sum of shares there and the number of orders.
#[derive(Clone, Copy, Default)]
pub struct Level {
    pub price: u64,
    pub shares: u64,
    pub orders: u64,
}

// Highest bid, lowest ask.
fn better(side: u8, price: u64, other: u64) -> bool
    ensures { result ≡ betterOf side price other }
{
    if side == b'B' {
        other < price
    } else {
        price < other
    }
}

// A symbol is told by its parts, which are worked out once for a whole table; the side is the cheapest test.
fn belongs(parts: Parts, side: u8, order: Order) -> bool
    ensures { (symbol : List ℕ) → Apart symbol parts → result ≡ is_of symbol side order }
{
    order.side == side && Parts::from(order.symbol) == parts
}

// One order more: the level it makes alone, the level with it, or the level as it was.
fn join(parts: Parts, side: u8, order: Order, level: Level) -> Level
    requires { Room level }
    ensures { (symbol : List ℕ) → Apart symbol parts → Joins symbol side order level result }
{
    if !belongs(parts, side, order) {
        return level;
    }
    let alone = Level {
        price: order.price,
        shares: order.shares as u64,
        orders: 1,
    };
    if level.orders == 0 {
        return alone;
    }
    if better(side, order.price, level.price) {
        return alone;
    }
    if order.price == level.price {
        return Level {
            price: level.price,
            shares: level.shares + (order.shares as u64),
            orders: level.orders + 1,
        };
    }
    level
}

// Refused where the symbol or the side breaks its rule, or where no such order is live.
pub fn best(orders: &[Order], symbol: [u8; 14], side: u8) -> Result<Level, Refusal>
    requires { length orders.now ≤ 256 }
    ensures { result ≡ best_for orders.now symbol side }
{
    if !good_symbol(symbol) || !good_side(side) {
        return Err(Refusal::BadQuestion);
    }
    let parts = Parts::from(symbol);
    let mut level = Level::default();
    for k in (0..orders.len()).rev() {
        level = join(parts, side, orders[k], level);
    }
    if level.orders == 0 {
        return Err(Refusal::NotThere);
    }
    Ok(level)
}
