// Parts: the fields of an inside and of a trade, put at a place (`message_put` puts those of every kind).
#![tactic(auto)]

ghost use Rattle.std.specs.Prelude.{[], ◌∷◌, ◌≡◌, ◌+◌, ◌≤◌, length};
ghost use Rattle.wire.specs.Layout.{number_is, put_row, text_is, width_of};
ghost use Rattle.message.specs.Layouts as layouts;

use message::layouts::{Deal, Quote, TopFields, TradeFields};

// What an Order Add offers, and what a Trade exchanged.
pub fn deal(buf: &mut [u8], at: usize, fields: Deal)
    requires { at + width_of layouts.deal ≤ length buf.old }
    ensures { buf.new ≡ put_row layouts.deal (number_is fields.side ∷ number_is fields.quantity ∷ text_is fields.symbol ∷ number_is fields.price ∷ []) buf.old at }
{
    wire::put_number(buf, at, fields.side);
    wire::put_number(buf, at + 1, fields.quantity);
    wire::put_text(buf, at + 5, &fields.symbol);
    wire::put_number(buf, at + 19, fields.price);
}

pub fn trade(buf: &mut [u8], at: usize, fields: TradeFields)
    requires { at + width_of layouts.trade ≤ length buf.old }
    ensures { buf.new ≡ put_row layouts.trade (number_is fields.time ∷ number_is fields.deal.side ∷ number_is fields.deal.quantity ∷ text_is fields.deal.symbol ∷ number_is fields.deal.price ∷ number_is fields.execution ∷ number_is fields.reserved ∷ []) buf.old at }
{
    wire::put_number(buf, at, fields.time);
    deal(buf, at + 4, fields.deal);
    wire::put_number(buf, at + 31, fields.execution);
    wire::put_number(buf, at + 39, fields.reserved);
}

// One side of a Top of Book.
fn quote(buf: &mut [u8], at: usize, fields: Quote)
    requires { at + width_of layouts.quote ≤ length buf.old }
    ensures { buf.new ≡ put_row layouts.quote (number_is fields.price ∷ number_is fields.volume ∷ []) buf.old at }
{
    wire::put_number(buf, at, fields.price);
    wire::put_number(buf, at + 8, fields.volume);
}

pub fn top(buf: &mut [u8], at: usize, fields: TopFields)
    requires { at + width_of layouts.top ≤ length buf.old }
    ensures { buf.new ≡ put_row layouts.top (number_is fields.time ∷ text_is fields.symbol ∷ number_is fields.ask.price ∷ number_is fields.ask.volume ∷ number_is fields.bid.price ∷ number_is fields.bid.volume ∷ number_is fields.unsolicited ∷ []) buf.old at }
{
    wire::put_number(buf, at, fields.time);
    wire::put_text(buf, at + 4, &fields.symbol);
    quote(buf, at + 18, fields.ask);
    quote(buf, at + 30, fields.bid);
    wire::put_number(buf, at + 42, fields.unsolicited);
}
