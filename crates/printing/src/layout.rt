// The type and each field of a message, in the order of its layout.
use crate::words::Texts;
use message::{Body, Kind, Message, Terms};
use std::io;

fn kind(rt: &impl Print, kind: Kind) -> io::Result<()> {
    print!(rt; " {}", kind.number())
}

pub fn fields(rt: &impl Print, m: Message, texts: Texts) -> io::Result<()> {
    let body = m.body;
    match body {
        Body::Security {
            updated,
            action,
            class,
            security,
            flags,
            tier,
            reporting,
            status,
        } => {
            kind(rt, Kind::Security)?;
            texts.put(rt, &m.symbol)?;
            print!(rt; " {updated} {action} {class} {security} {flags} {tier} {reporting} {status}")
        }
        Body::SpinStart { .. } | Body::SpinEnd { .. } | Body::TradingSession { .. } => {
            reference(rt, body)
        }
        Body::Top { .. } | Body::Trade { .. } => share(rt, m, texts),
        Body::Other(number) => print!(rt; " {number}"),
        _ => order(rt, m, texts),
    }
}

fn reference(rt: &impl Print, body: Body) -> io::Result<()> {
    match body {
        Body::SpinStart { spin, time, last } => {
            kind(rt, Kind::SpinStart)?;
            print!(rt; " {spin} {time} {last}")
        }
        Body::SpinEnd {
            spin,
            count,
            time,
            last,
        } => {
            kind(rt, Kind::SpinEnd)?;
            print!(rt; " {spin} {count} {time} {last}")
        }
        Body::TradingSession { time, session } => {
            kind(rt, Kind::TradingSession)?;
            print!(rt; " {time} {session}")
        }
        _ => Ok(()),
    }
}

fn order(rt: &impl Print, m: Message, texts: Texts) -> io::Result<()> {
    let body = m.body;
    match body {
        Body::Add {
            time,
            side,
            quantity,
            price,
            unsolicited,
            flags,
        } => {
            kind(rt, Kind::Add)?;
            print!(rt; " {time}")?;
            texts.put(rt, &m.id)?;
            print!(rt; " {side} {quantity}")?;
            texts.put(rt, &m.symbol)?;
            print!(rt; " {price}")?;
            texts.put(rt, &m.firm)?;
            print!(rt; " {unsolicited} {flags}")
        }
        Body::Update {
            time,
            quantity,
            price,
            flags,
        } => {
            kind(rt, Kind::Update)?;
            print!(rt; " {time}")?;
            texts.put(rt, &m.id)?;
            print!(rt; " {quantity} {price} {flags}")
        }
        Body::Delete { time } => {
            kind(rt, Kind::Delete)?;
            print!(rt; " {time}")?;
            texts.put(rt, &m.id)
        }
        _ => executed(rt, m, texts),
    }
}

fn executed(rt: &impl Print, m: Message, texts: Texts) -> io::Result<()> {
    let body = m.body;
    let Body::Execution {
        time,
        executed,
        remaining,
        execution,
        terms,
    } = body
    else {
        return Ok(());
    };
    match terms {
        Terms::Published => kind(rt, Kind::Execution)?,
        Terms::Own(_) => kind(rt, Kind::Priced)?,
    }
    print!(rt; " {time}")?;
    texts.put(rt, &m.id)?;
    print!(rt; " {executed} {remaining} {execution}")?;
    match terms {
        Terms::Published => Ok(()),
        Terms::Own(price) => print!(rt; " {price}"),
    }
}

fn share(rt: &impl Print, m: Message, texts: Texts) -> io::Result<()> {
    let body = m.body;
    match body {
        Body::Top {
            time,
            ask,
            askvolume,
            bid,
            bidvolume,
            unsolicited,
        } => {
            kind(rt, Kind::Top)?;
            print!(rt; " {time}")?;
            texts.put(rt, &m.symbol)?;
            print!(rt; " {ask} {askvolume} {bid} {bidvolume} {unsolicited}")
        }
        Body::Trade {
            time,
            side,
            quantity,
            price,
            execution,
            reserved,
        } => {
            kind(rt, Kind::Trade)?;
            print!(rt; " {time} {side} {quantity}")?;
            texts.put(rt, &m.symbol)?;
            print!(rt; " {price} {execution} {reserved}")
        }
        _ => Ok(()),
    }
}
