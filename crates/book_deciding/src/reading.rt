// Parts: what a whole message names and makes.
ghost use Rattle.std.specs.Prelude.{◌≡◌, ◌≤◌, length};
ghost use Rattle.wire.specs.Number.{part};
ghost use Rattle.fields.specs.Id.{number_of};
ghost use Rattle.message.specs.Row.{fields_of};
ghost use Rattle.book.specs.Applying.{Naming, order_of, inside_of};

use book::tables::{Inside, Order};
use fields::parts::number;

// The value of the id of 21 to 25, or NONE where it breaks the id's rule.
pub fn key_at(bytes: &[u8]) -> u64
    requires { 21 ≤ length bytes.now }
    ensures { result ≡ number_of (part bytes.now 7 14) }
{
    number(message_layouts::named(bytes).id)
}

// The order that an Add makes.
pub fn order_of(bytes: &[u8], key: u64) -> Order
    requires { Naming 55 bytes.now key }
    ensures { result ≡ order_of (fields_of 21 bytes.now) }
{
    let fields = message_layouts::add(bytes);
    let firm = fields.firm;
    let symbol = fields.deal.symbol;
    Order {
        id: key,
        price: fields.deal.price,
        shares: fields.deal.quantity,
        firm,
        symbol,
        side: fields.deal.side,
        unsolicited: fields.unsolicited,
    }
}

// The inside that a Top of Book tells.
pub fn inside_of(bytes: &[u8]) -> Inside
    requires { 46 ≤ length bytes.now }
    ensures { result ≡ inside_of (fields_of 26 bytes.now) }
{
    let fields = message_layouts::top(bytes);
    let symbol = fields.symbol;
    Inside {
        ask: fields.ask.price,
        bid: fields.bid.price,
        time: fields.time as u64,
        askvolume: fields.ask.volume as u64,
        bidvolume: fields.bid.volume as u64,
        symbol,
        unsolicited: fields.unsolicited,
    }
}
