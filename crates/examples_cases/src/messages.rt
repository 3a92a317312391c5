// Messages: each type, each field rule, and the size at both ends.
use crate::rows::number;
use crate::{rows, samples};
use printing::answers;
use printing::words::{Texts, label};
use std::io;

// A good message of a type with MessageSize set to a size, of which so many bytes are lent, zeros
// behind its end, and at a place a number of a width: type, size, length, place, width and number.
fn case(rt: &impl Print, line: &[u8]) -> io::Result<()> {
    let mut bytes = [0u8; 256];
    copy(samples::of_type(number(line, 0)), &mut bytes);
    patch(&mut bytes, 0, 2, number(line, 1));
    patch(
        &mut bytes,
        rows::place(line, 3),
        number(line, 4),
        number(line, 5),
    );
    let length = rows::place(line, 2);
    if length <= 256 {
        label(rt, rows::label(line))?;
        answers::message(rt, message_read::read(&bytes[..length]), Texts::Quoted)?;
    }
    Ok(())
}

fn patch(bytes: &mut [u8], at: usize, width: u64, value: u64) {
    if at <= 240 {
        if 256 <= bytes.len() {
            match width {
                1 => wire::put_number(bytes, at, (value % 256) as u8),
                2 => wire::put_number(bytes, at, (value % 65536) as u16),
                4 => wire::put_number(bytes, at, (value % 4294967296) as u32),
                8 => wire::put_number(bytes, at, value),
                _ => {}
            }
        }
    }
}

// As much as fits.
fn copy(from: &[u8], to: &mut [u8]) {
    let count = from.len().min(to.len());
    to[..count].copy_from_slice(&from[..count]);
}

pub fn run(rt: &impl Print) -> io::Result<()> {
    references(rt)?;
    sizes(rt)?;
    adds(rt)?;
    orders(rt)?;
    shares(rt)
}

fn cases(rt: &impl Print, table: &str) -> io::Result<()> {
    for line in table.lines() {
        case(rt, line.as_bytes())?;
    }
    Ok(())
}

fn references(rt: &impl Print) -> io::Result<()> {
    cases(
        rt,
        "Security, exact size | 9 36 36 0 0 0\n\
        Security, one byte short | 9 35 35 0 0 0\n\
        Security, a symbol that starts with a space has no rule | 9 36 36 3 1 32\n\
        Start of Spin, exact size | 11 16 16 0 0 0\n\
        Start of Spin, one byte short | 11 15 15 0 0 0\n\
        End of Spin, exact size | 12 20 20 0 0 0\n\
        End of Spin, one byte short | 12 19 19 0 0 0\n\
        Trading Session, exact size | 20 12 12 0 0 0\n\
        Trading Session, one byte short | 20 11 11 0 0 0\n\
        Trading Session 1 | 20 12 12 11 1 1\n\
        Trading Session 5 | 20 12 12 11 1 5\n\
        Trading Session 0 | 20 12 12 11 1 0\n\
        Trading Session 2 | 20 12 12 11 1 2\n",
    )
}

fn sizes(rt: &impl Print) -> io::Result<()> {
    cases(
        rt,
        "Order Add, exact size | 21 55 55 0 0 0\n\
        Order Add, MessageSize 54 (P5) | 21 54 54 0 0 0\n\
        Order Add, MessageSize 56 (P6) | 21 56 56 0 0 0\n\
        Order Add, MessageSize 52, the payload alone | 21 52 52 0 0 0\n\
        Order Add, MessageSize 55 in 56 bytes | 21 55 56 0 0 0\n\
        Order Add, MessageSize 56 in 55 bytes | 21 56 55 0 0 0\n\
        Order Add, MessageSize 0 | 21 0 55 0 0 0\n\
        Order Add, MessageSize 65,535 | 21 65535 55 0 0 0\n\
        Order Add of 128 bytes | 21 128 128 0 0 0\n\
        Order Add of 129 bytes | 21 129 129 0 0 0\n\
        Order Add, no byte lent | 21 55 0 0 0 0\n\
        Order Add, 2 bytes lent | 21 2 2 0 0 0\n\
        Order Add too short, its side X too | 21 54 54 21 1 88\n",
    )
}

fn adds(rt: &impl Print) -> io::Result<()> {
    cases(
        rt,
        "Order Add, a small letter in the id | 21 55 55 18 1 97\n\
        Order Add, a small letter in the id's last two | 21 55 55 19 1 97\n\
        Order Add, side S | 21 55 55 21 1 83\n\
        Order Add, side X | 21 55 55 21 1 88\n\
        Order Add, quantity 0 | 21 55 55 22 4 0\n\
        Order Add, quantity 4,294,967,295 | 21 55 55 22 4 4294967295\n\
        Order Add, symbol starts with a space | 21 55 55 26 1 32\n\
        Order Add, a symbol byte 0x7F | 21 55 55 27 1 127\n\
        Order Add, a symbol byte 0x7E | 21 55 55 27 1 126\n\
        Order Add, a symbol byte 0x1F | 21 55 55 39 1 31\n\
        Order Add, price 0 | 21 55 55 40 8 0\n\
        Order Add, price 1 | 21 55 55 40 8 1\n\
        Order Add, price 9,223,372,036,854,775,807 | 21 55 55 40 8 9223372036854775807\n\
        Order Add, price 9,223,372,036,854,775,808 | 21 55 55 40 8 9223372036854775808\n\
        Order Add, unsolicited Y | 21 55 55 52 1 89\n\
        Order Add, unsolicited X | 21 55 55 52 1 88\n\
        Order Add, flags 65,535 | 21 55 55 53 2 65535\n",
    )
}

fn orders(rt: &impl Print) -> io::Result<()> {
    cases(
        rt,
        "Order Update, exact size | 22 35 35 0 0 0\n\
        Order Update, one byte short | 22 34 34 0 0 0\n\
        Order Update, quantity 0 | 22 35 35 21 4 0\n\
        Order Update, price 0 | 22 35 35 25 8 0\n\
        Order Delete, exact size | 23 21 21 0 0 0\n\
        Order Delete, one byte short | 23 20 20 0 0 0\n\
        Order Delete, a space in the id | 23 21 21 7 1 32\n\
        Imbalance of 3 bytes | 23 3 3 2 1 28\n\
        Imbalance of 21 bytes | 23 21 21 2 1 28\n\
        type 0 of 3 bytes | 23 3 3 2 1 0\n\
        type J of 20 bytes | 23 20 20 2 1 74\n\
        type 255 of 128 bytes | 23 128 128 2 1 255\n\
        Execution, exact size | 24 37 37 0 0 0\n\
        Execution, one byte short | 24 36 36 0 0 0\n\
        Execution, executed 0 | 24 37 37 21 4 0\n\
        Execution, remaining 4,294,967,295 has no rule | 24 37 37 25 4 4294967295\n\
        Execution with Price, exact size | 25 45 45 0 0 0\n\
        Execution with Price, one byte short | 25 44 44 0 0 0\n\
        Execution with Price, price 0 | 25 45 45 37 8 0\n",
    )
}

fn shares(rt: &impl Print) -> io::Result<()> {
    cases(
        rt,
        "Top of Book, exact size | 26 46 46 0 0 0\n\
        Top of Book, one byte short | 26 45 45 0 0 0\n\
        Top of Book, ask 0 | 26 46 46 21 8 0\n\
        Top of Book, bid 0 | 26 46 46 33 8 0\n\
        Top of Book, bid 9,223,372,036,854,775,808 | 26 46 46 33 8 9223372036854775808\n\
        Top of Book, unsolicited 0 | 26 46 46 45 1 0\n\
        Trade, exact size | 27 50 50 0 0 0\n\
        Trade, one byte short | 27 49 49 0 0 0\n\
        Trade, side S | 27 50 50 7 1 83\n\
        Trade, quantity 0 | 27 50 50 8 4 0\n\
        Trade, price 0 | 27 50 50 26 8 0\n\
        Trade, reserved 18,446,744,073,709,551,615 | 27 50 50 42 8 18446744073709551615\n",
    )
}
