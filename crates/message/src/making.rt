// The message that the fields of a type make. A text that the type has not is all zero.
ghost use Rattle.std.specs.Prelude.{◌≡◌};
ghost use Rattle.message.specs.Row.{bare as bareOf, of_security, of_spin_start, of_spin_end, of_trading_session, of_add, of_update, of_delete, executed_at, of_execution, of_priced, of_top, of_trade};

use crate::kinds::{Body, Message, Terms};
use crate::layouts::{
    AddFields, ExecutionFields, Named, PricedFields, SecurityFields, SpinEndFields,
    SpinStartFields, TopFields, TradeFields, TradingSessionFields, UpdateFields,
};

impl Message {
    // A message of numbers alone.
    pub fn bare(body: Body) -> Message
        ensures { result ≡ bareOf body }
    {
        Message {
            id: [0; 14],
            symbol: [0; 14],
            firm: [0; 4],
            body,
        }
    }
}

impl From<SecurityFields> for Message {
    ghost from_gives = { λ fields message. message ≡ of_security fields };

    fn from(fields: SecurityFields) -> Message {
        let body = Body::Security {
            updated: fields.updated,
            action: fields.action,
            class: fields.class,
            security: fields.security,
            flags: fields.flags,
            tier: fields.tier,
            reporting: fields.reporting,
            status: fields.status,
        };
        let symbol = fields.symbol;
        Message {
            symbol,
            ..Message::bare(body)
        }
    }
}

impl From<SpinStartFields> for Message {
    ghost from_gives = { λ fields message. message ≡ of_spin_start fields };

    fn from(fields: SpinStartFields) -> Message {
        Message::bare(Body::SpinStart {
            spin: fields.spin,
            time: fields.time,
            last: fields.last,
        })
    }
}

impl From<SpinEndFields> for Message {
    ghost from_gives = { λ fields message. message ≡ of_spin_end fields };

    fn from(fields: SpinEndFields) -> Message {
        Message::bare(Body::SpinEnd {
            spin: fields.spin,
            count: fields.count,
            time: fields.time,
            last: fields.last,
        })
    }
}

impl From<TradingSessionFields> for Message {
    ghost from_gives = { λ fields message. message ≡ of_trading_session fields };

    fn from(fields: TradingSessionFields) -> Message {
        Message::bare(Body::TradingSession {
            time: fields.time,
            session: fields.session,
        })
    }
}

impl From<AddFields> for Message {
    ghost from_gives = { λ fields message. message ≡ of_add fields };

    fn from(fields: AddFields) -> Message {
        let body = Body::Add {
            time: fields.named.time,
            side: fields.deal.side,
            quantity: fields.deal.quantity,
            price: fields.deal.price,
            unsolicited: fields.unsolicited,
            flags: fields.flags,
        };
        let id = fields.named.id;
        let symbol = fields.deal.symbol;
        let firm = fields.firm;
        Message {
            id,
            symbol,
            firm,
            body,
        }
    }
}

impl From<UpdateFields> for Message {
    ghost from_gives = { λ fields message. message ≡ of_update fields };

    fn from(fields: UpdateFields) -> Message {
        let body = Body::Update {
            time: fields.named.time,
            quantity: fields.quantity,
            price: fields.price,
            flags: fields.flags,
        };
        let id = fields.named.id;
        Message {
            id,
            ..Message::bare(body)
        }
    }
}

impl From<Named> for Message {
    ghost from_gives = { λ fields message. message ≡ of_delete fields };

    fn from(fields: Named) -> Message {
        let id = fields.id;
        Message {
            id,
            ..Message::bare(Body::Delete { time: fields.time })
        }
    }
}

// An execution, at the published price or at its own.
fn executed(terms: Terms, fields: ExecutionFields) -> Message
    ensures { result ≡ executed_at terms fields }
{
    let body = Body::Execution {
        time: fields.named.time,
        executed: fields.executed,
        remaining: fields.remaining,
        execution: fields.execution,
        terms,
    };
    let id = fields.named.id;
    Message {
        id,
        ..Message::bare(body)
    }
}

impl From<ExecutionFields> for Message {
    ghost from_gives = { λ fields message. message ≡ of_execution fields };

    fn from(fields: ExecutionFields) -> Message {
        executed(Terms::Published, fields)
    }
}

impl From<PricedFields> for Message {
    ghost from_gives = { λ fields message. message ≡ of_priced fields };

    fn from(fields: PricedFields) -> Message {
        executed(Terms::Own(fields.price), fields.execution)
    }
}

impl From<TopFields> for Message {
    ghost from_gives = { λ fields message. message ≡ of_top fields };

    fn from(fields: TopFields) -> Message {
        let body = Body::Top {
            time: fields.time,
            ask: fields.ask.price,
            askvolume: fields.ask.volume,
            bid: fields.bid.price,
            bidvolume: fields.bid.volume,
            unsolicited: fields.unsolicited,
        };
        let symbol = fields.symbol;
        Message {
            symbol,
            ..Message::bare(body)
        }
    }
}

impl From<TradeFields> for Message {
    ghost from_gives = { λ fields message. message ≡ of_trade fields };

    fn from(fields: TradeFields) -> Message {
        let body = Body::Trade {
            time: fields.time,
            side: fields.deal.side,
            quantity: fields.deal.quantity,
            price: fields.deal.price,
            execution: fields.execution,
            reserved: fields.reserved,
        };
        let symbol = fields.deal.symbol;
        Message {
            symbol,
            ..Message::bare(body)
        }
    }
}
