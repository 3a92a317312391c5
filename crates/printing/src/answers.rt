// Parts: an answer's own words.
use crate::layout;
use crate::words::Texts;
use message::Message;
use packet::Header;
use std::fmt::Display;
use std::io;

// A refusal with no line end: a buffer may follow. It is a `Refusal`, or the number of one.
pub fn refusal<R: Display + Drop>(rt: &impl Print, refusal: R) -> io::Result<()> {
    print!(rt; "refused {refusal}")
}

pub fn refused<R: Display + Drop>(rt: &impl Print, refusal: R) -> io::Result<()> {
    println!(rt; "refused {refusal}")
}

pub fn value<R: Display + Drop>(rt: &impl Print, answer: Result<u64, R>) -> io::Result<()> {
    match answer {
        Ok(value) => println!(rt; "value {value}"),
        Err(refusal) => refused(rt, refusal),
    }
}

pub fn header<R: Display + Drop>(rt: &impl Print, answer: Result<Header, R>) -> io::Result<()> {
    match answer {
        Ok(
            Header {
                size,
                seq,
                flag,
                messages,
                milli,
            },
        ) => println!(rt; "header {size} {seq} {flag} {messages} {milli}"),
        Err(refusal) => refused(rt, refusal),
    }
}

pub fn message<R: Display + Drop>(
    rt: &impl Print,
    answer: Result<Message, R>,
    texts: Texts,
) -> io::Result<()> {
    match answer {
        Ok(message) => {
            print!(rt; "message")?;
            layout::fields(rt, message, texts)?;
            println!(rt; "")
        }
        Err(refusal) => refused(rt, refusal),
    }
}

// What a writer says; the buffer follows.
pub fn written<R: Display + Drop>(rt: &impl Print, said: Result<usize, R>) -> io::Result<()> {
    match said {
        Ok(count) => print!(rt; "wrote {count}"),
        Err(refused) => refusal(rt, refused),
    }
}
