// One packet, judged and walked.
ghost use Rattle.std.specs.Prelude.{◌≡◌, [], ◌∷◌, ◌*◌, ◌≤◌, length};
ghost use Rattle.packet.specs.Judging.{judge_of};
ghost use Rattle.packet.specs.Walk.{frames_from};
ghost use Rattle.single.specs.Over.{over};
ghost use Rattle.single.specs.Walks.{flat, places_after, walk_numbers, walk_refusal, Walkable};

use packet::HEADER;
use packet_reader::judge::judged;
use refusals::Refusal;

// Which of 1 to 8 decides, and the byte offset that it rests on.
pub fn judge(packet: &[u8], told: &mut [u64; 1]) -> u64
    ensures refusal { result ≡ (judge_of packet.now).test }
    ensures told { told.new ≡ over ((judge_of packet.now).offset ∷ []) told.old }
{
    match packet_judge::judge(packet) {
        Ok(()) => {
            told[0] = 0;
            0
        }
        Err(rejection) => {
            told[0] = rejection.offset as u64;
            rejection.refusal.number() as u64
        }
    }
}

fn put(s: &[u8], messages: u8, places: &mut [u64])
    requires walkable { Walkable messages 12 s.now }
    requires messages_in_bounds { 2 * messages ≤ length places.old }
    ensures { places.new ≡ over (flat (frames_from messages 12 s.now)) places.old }
{
    let mut at = HEADER;
    for i in 0..messages as usize {
        let size = wire::number_at::<u16>(s, at) as usize;
        places[2 * i] = at as u64;
        places[2 * i + 1] = size as u64;
        at += size;
    }
}

// Where each message of a packet lies and how many bytes it has, two numbers a message. Told are the offset that the
// refusal rests on, and how many messages there are.
pub fn walk(packet: &[u8], places: &mut [u64], told: &mut [u64; 2]) -> u64
    ensures refusal { result ≡ walk_refusal packet.now (length places.old) }
    ensures places { places.new ≡ places_after packet.now places.old }
    ensures told { told.new ≡ over (walk_numbers packet.now) told.old }
{
    if let Err(rejection) = judged(packet) {
        told[0] = rejection.offset as u64;
        told[1] = 0;
        return rejection.refusal.number() as u64;
    }
    let messages = wire::number_at::<u8>(packet, 7);
    told[0] = 0;
    told[1] = messages as u64;
    if places.len() / 2 < messages as usize {
        return Refusal::NoRoom.number() as u64;
    }
    put(packet, messages, places);
    0
}
