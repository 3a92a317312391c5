// Whole ranges, a character a case: `-` taken, else the refusal's digit (4 is 14 in a message, 2 is 12 in an id).
ghost use Rattle.std.specs.Prelude.{◌<◌};

use refusals::Refusal;
use std::io;

pub fn run(rt: &impl Print) -> io::Result<()> {
    sweep(
        rt,
        "flags 0 to 255, 12 bytes, Messages 0",
        |k| header(12, k, 0),
    )?;
    sweep(
        rt,
        "flags 0 to 255, 13 bytes, Messages 1",
        |k| header(13, k, 1),
    )?;
    sweep(rt, "types 0 to 255, 3 bytes", |k| message(3, k))?;
    sweep(
        rt,
        "types 0 to 255, 128 bytes of zeros",
        |k| message(128, k),
    )?;
    sweep(rt, "lengths 0 to 255 of type 0", |k| message(k, 0))?;
    sweep(rt, "characters 0 to 255, the first of an id", |k| id(0, k))?;
    sweep(
        rt,
        "characters 0 to 255, the twelfth of an id",
        |k| id(11, k),
    )?;
    sweep(
        rt,
        "characters 0 to 255, the thirteenth of an id",
        |k| id(12, k),
    )
}

fn sweep<F: Fn(u8) -> Result<(), Refusal>>(rt: &impl Print, label: &str, case: F) -> io::Result<()>
    requires { F.IsAlwaysCallable case }
{
    print!(rt; "{label}: ")?;
    for k in 0..=255 {
        match case(k) {
            Ok(()) => print!(rt; "-")?,
            Err(refusal) => print!(rt; "{}", refusal.number() % 10)?,
        }
    }
    println!(rt; "")
}

fn header(size: u8, flag: u8, messages: u8) -> Result<(), Refusal> {
    let mut packet = [0u8; 256];
    packet[1] = size;
    packet[6] = flag;
    packet[7] = messages;
    packet::read_header(&packet[..size as usize])?;
    Ok(())
}

fn message(size: u8, kind: u8) -> Result<(), Refusal> {
    let mut bytes = [0u8; 256];
    bytes[1] = size;
    bytes[2] = kind;
    message_read::read(&bytes[..size as usize])?;
    Ok(())
}

fn id(place: usize, c: u8) -> Result<(), Refusal>
    requires { place < 14 }
{
    let mut id = [b'0'; 14];
    id[place] = c;
    fields::id::value(id)?;
    Ok(())
}
