// Parts: the fields of a message put at a place, all other bytes staying. No host needs them.
ghost use Rattle.std.specs.Prelude.{[], ◌∷◌, ◌≡◌, ◌+◌, ◌≤◌, drop, length, take};
ghost use Rattle.wire.specs.Layout.{number_is, put_row, text_is, width_of};
ghost use Rattle.message.specs.Layouts as layouts;
ghost use Rattle.message.specs.Row.{row_of, row_with, type_of, type_of_terms};

use message::layouts::{
    AddFields, Deal, ExecutionFields, Named, Quote, SecurityFields, SpinEndFields, SpinStartFields,
    TopFields, TradeFields, TradingSessionFields, UpdateFields,
};
use message::{Body, Message, Terms};
use message_put_market::{deal, top, trade};

// A Security goes in two halves, which keeps each proof short.
fn security_front(buf: &mut [u8], at: usize, fields: SecurityFields)
    requires { at + width_of (take 4 layouts.security) ≤ length buf.old }
    ensures { buf.new ≡ put_row (take 4 layouts.security) (text_is fields.symbol ∷ number_is fields.updated ∷ number_is fields.action ∷ number_is fields.class ∷ []) buf.old at }
{
    wire::put_text(buf, at, &fields.symbol);
    wire::put_number(buf, at + 14, fields.updated);
    wire::put_number(buf, at + 22, fields.action);
    wire::put_number(buf, at + 23, fields.class);
}

fn security_back(buf: &mut [u8], at: usize, fields: SecurityFields)
    requires { at + width_of (drop 4 layouts.security) ≤ length buf.old }
    ensures { buf.new ≡ put_row (drop 4 layouts.security) (number_is fields.security ∷ number_is fields.flags ∷ number_is fields.tier ∷ number_is fields.reporting ∷ number_is fields.status ∷ []) buf.old at }
{
    wire::put_number(buf, at, fields.security);
    wire::put_number(buf, at + 4, fields.flags);
    wire::put_number(buf, at + 6, fields.tier);
    wire::put_number(buf, at + 7, fields.reporting);
    wire::put_number(buf, at + 8, fields.status);
}

fn of_security(buf: &mut [u8], at: usize, fields: SecurityFields)
    requires { at + width_of layouts.security ≤ length buf.old }
    ensures { buf.new ≡ put_row layouts.security (text_is fields.symbol ∷ number_is fields.updated ∷ number_is fields.action ∷ number_is fields.class ∷ number_is fields.security ∷ number_is fields.flags ∷ number_is fields.tier ∷ number_is fields.reporting ∷ number_is fields.status ∷ []) buf.old at }
{
    security_front(buf, at, fields);
    security_back(buf, at + 24, fields);
}

fn spin_start(buf: &mut [u8], at: usize, fields: SpinStartFields)
    requires { at + width_of layouts.spin_start ≤ length buf.old }
    ensures { buf.new ≡ put_row layouts.spin_start (number_is fields.spin ∷ number_is fields.time ∷ number_is fields.last ∷ []) buf.old at }
{
    wire::put_number(buf, at, fields.spin);
    wire::put_number(buf, at + 1, fields.time);
    wire::put_number(buf, at + 9, fields.last);
}

fn spin_end(buf: &mut [u8], at: usize, fields: SpinEndFields)
    requires { at + width_of layouts.spin_end ≤ length buf.old }
    ensures { buf.new ≡ put_row layouts.spin_end (number_is fields.spin ∷ number_is fields.count ∷ number_is fields.time ∷ number_is fields.last ∷ []) buf.old at }
{
    wire::put_number(buf, at, fields.spin);
    wire::put_number(buf, at + 1, fields.count);
    wire::put_number(buf, at + 5, fields.time);
    wire::put_number(buf, at + 13, fields.last);
}

fn trading_session(buf: &mut [u8], at: usize, fields: TradingSessionFields)
    requires { at + width_of layouts.trading_session ≤ length buf.old }
    ensures { buf.new ≡ put_row layouts.trading_session (number_is fields.time ∷ number_is fields.session ∷ []) buf.old at }
{
    wire::put_number(buf, at, fields.time);
    wire::put_number(buf, at + 8, fields.session);
}

// What 21 to 25 begin with, which is all of an Order Delete.
fn named(buf: &mut [u8], at: usize, fields: Named)
    requires { at + width_of layouts.delete ≤ length buf.old }
    ensures { buf.new ≡ put_row layouts.delete (number_is fields.time ∷ text_is fields.id ∷ []) buf.old at }
{
    wire::put_number(buf, at, fields.time);
    wire::put_text(buf, at + 4, &fields.id);
}

fn add(buf: &mut [u8], at: usize, fields: AddFields)
    requires { at + width_of layouts.add ≤ length buf.old }
    ensures { buf.new ≡ put_row layouts.add (number_is fields.named.time ∷ text_is fields.named.id ∷ number_is fields.deal.side ∷ number_is fields.deal.quantity ∷ text_is fields.deal.symbol ∷ number_is fields.deal.price ∷ text_is fields.firm ∷ number_is fields.unsolicited ∷ number_is fields.flags ∷ []) buf.old at }
{
    named(buf, at, fields.named);
    deal(buf, at + 18, fields.deal);
    wire::put_text(buf, at + 45, &fields.firm);
    wire::put_number(buf, at + 49, fields.unsolicited);
    wire::put_number(buf, at + 50, fields.flags);
}

fn update(buf: &mut [u8], at: usize, fields: UpdateFields)
    requires { at + width_of layouts.update ≤ length buf.old }
    ensures { buf.new ≡ put_row layouts.update (number_is fields.named.time ∷ text_is fields.named.id ∷ number_is fields.quantity ∷ number_is fields.price ∷ number_is fields.flags ∷ []) buf.old at }
{
    named(buf, at, fields.named);
    wire::put_number(buf, at + 18, fields.quantity);
    wire::put_number(buf, at + 22, fields.price);
    wire::put_number(buf, at + 30, fields.flags);
}

// An execution, at the published price or, behind the fields of both, at its own.
fn of_execution(buf: &mut [u8], at: usize, fields: ExecutionFields, terms: Terms)
    requires { at + width_of (layouts.layout_of (type_of_terms terms)) ≤ length buf.old }
    ensures { buf.new ≡ put_row (layouts.layout_of (type_of_terms terms)) (row_with fields.named.id [] [] (Body.Execution fields.named.time fields.executed fields.remaining fields.execution terms)) buf.old at }
{
    named(buf, at, fields.named);
    wire::put_number(buf, at + 18, fields.executed);
    wire::put_number(buf, at + 22, fields.remaining);
    wire::put_number(buf, at + 26, fields.execution);
    match terms {
        Terms::Published => {}
        Terms::Own(price) => wire::put_number(buf, at + 34, price),
    }
}

// The fields of a message by its kind, an arm each; of 28 and unlisted types there are none.
#[tactic(auto, using(crate::proofs::ByKind::kind_room, crate::proofs::ByKind::kind_put, wire::proofs::Layouts::none_row), unfolding(message::specs::Layouts::layout_of))]
pub fn fields(message: Message, buf: &mut [u8], at: usize)
    requires { at + width_of (layouts.layout_of (type_of message)) ≤ length buf.old }
    ensures { buf.new ≡ put_row (layouts.layout_of (type_of message)) (row_of message) buf.old at }
{
    let id = message.id;
    let symbol = message.symbol;
    let firm = message.firm;
    let body = message.body;
    match body {
        Body::Security {
            updated,
            action,
            class,
            security,
            flags,
            tier,
            reporting,
            status,
        } => {
            let fields = SecurityFields {
                symbol,
                updated,
                action,
                class,
                security,
                flags,
                tier,
                reporting,
                status,
            };
            of_security(buf, at, fields)
        }
        Body::SpinStart { spin, time, last } => {
            spin_start(buf, at, SpinStartFields { spin, time, last })
        }
        Body::SpinEnd {
            spin,
            count,
            time,
            last,
        } => {
            let fields = SpinEndFields {
                spin,
                count,
                time,
                last,
            };
            spin_end(buf, at, fields)
        }
        Body::TradingSession { time, session } => {
            trading_session(buf, at, TradingSessionFields { time, session })
        }
        Body::Add {
            time,
            side,
            quantity,
            price,
            unsolicited,
            flags,
        } => {
            let fields = AddFields {
                named: Named { time, id },
                deal: Deal {
                    side,
                    quantity,
                    symbol,
                    price,
                },
                firm,
                unsolicited,
                flags,
            };
            add(buf, at, fields)
        }
        Body::Update {
            time,
            quantity,
            price,
            flags,
        } => {
            let fields = UpdateFields {
                named: Named { time, id },
                quantity,
                price,
                flags,
            };
            update(buf, at, fields)
        }
        Body::Delete { time } => named(buf, at, Named { time, id }),
        Body::Execution {
            time,
            executed,
            remaining,
            execution,
            terms,
        } => {
            let fields = ExecutionFields {
                named: Named { time, id },
                executed,
                remaining,
                execution,
            };
            of_execution(buf, at, fields, terms)
        }
        Body::Top {
            time,
            ask,
            askvolume,
            bid,
            bidvolume,
            unsolicited,
        } => {
            let fields = TopFields {
                time,
                symbol,
                ask: Quote {
                    price: ask,
                    volume: askvolume,
                },
                bid: Quote {
                    price: bid,
                    volume: bidvolume,
                },
                unsolicited,
            };
            top(buf, at, fields)
        }
        Body::Trade {
            time,
            side,
            quantity,
            price,
            execution,
            reserved,
        } => {
            let fields = TradeFields {
                time,
                deal: Deal {
                    side,
                    quantity,
                    symbol,
                    price,
                },
                execution,
                reserved,
            };
            trade(buf, at, fields)
        }
        Body::Other(_) => {}
    }
}
