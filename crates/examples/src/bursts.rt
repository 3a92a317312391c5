// A burst: three packets in one call, and the list of their answers.
ghost use Rattle.std.specs.Prelude.{◌≡◌, length};

use crate::answers;
use book::tables::OpeningRule;
use printing::answers::refusal;
use session::packets;
use session_owned::Owned;
use std::io;

pub fn run(rt: &impl Print) -> io::Result<()> {
    burst(rt, "burst of three, 12 numbers", 12)?;
    burst(rt, "burst of three, 11 numbers", 11)
}

// The answers to three packets in the first `size` numbers of a list of 7.
fn burst(rt: &impl Print, label: &str, size: usize) -> io::Result<()> {
    let packets = three();
    let mut list = [7u64; 12];
    print!(rt; "{label}: ")?;
    answered(rt, &packets, &mut list, size)?;
    print!(rt; ", list")?;
    for answer in list {
        print!(rt; " {answer}")?;
    }
    println!(rt; "")
}

fn answered(rt: &impl Print, packets: &[u8], list: &mut [u64], size: usize) -> io::Result<()> {
    if size <= list.len() {
        let mut owned = Owned::open(10, OpeningRule::Default);
        let session = owned.session;
        let answers = &mut list[..size];
        let taken = packets::burst(
            session,
            &mut owned.room,
            &mut owned.window,
            packets,
            3,
            answers,
        );
        match taken.count {
            Ok(count) => print!(rt; "packets {count}")?,
            Err(refused) => refusal(rt, refused)?,
        }
        answers::numbers(rt, &owned)?;
    }
    Ok(())
}

// An order in a packet in order, the same in one too far ahead, and a heartbeat, each behind its length.
fn three() -> [u8; 152]
    ensures { length result ≡ 152 }
{
    *b"\x00C\x00C\x00\x00\x00\x0A\x00\x01\x04J\xA2\x00\
    \x007\x15\x00\x00\x00\x0100000000000000B\x00\x00\x01,MSFTF         \x00\x00\x00\x00\x00\x13\x12\xD0ABCDN\x00\x00\
    \x00C\x00C\x00\x00\x01,\x00\x01\x04J\xA2\x00\
    \x007\x15\x00\x00\x00\x0100000000000000B\x00\x00\x01,MSFTF         \x00\x00\x00\x00\x00\x13\x12\xD0ABCDN\x00\x00\
    \x00\x0C\x00\x0C\x00\x00\x00\x0C\x01\x00\x04J\xA2\x00"
}
