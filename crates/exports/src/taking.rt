// What stands around the engine where packets go into a session.
ghost use Rattle.std.specs.Prelude.{◌≡◌};
ghost use Rattle.exports.specs.Handed.{due_of};
ghost use Rattle.exports.specs.Kept.{count_numbers};
ghost use Rattle.single.specs.Over.{over};

use refusals::{Refusal, number_in};

// How many packets the call takes, as many as the host says; bytes that are one packet are one. None where the answers to
// so many do not fit.
pub fn due_of(one: bool, count: u64, space: usize) -> Option<usize>
    ensures { result ≡ due_of one count space }
{
    let most = if one { 1 } else { count as usize };
    if most <= space / 4 { Some(most) } else { None }
}

// The refusal, how many packets there were and how many bytes they are.
pub fn tell_all(told: &mut [u64; 3], packets: Result<usize, Refusal>, bytes: usize)
    ensures { told.new ≡ over (count_numbers packets bytes) told.old }
{
    told[0] = number_in(&packets) as u64;
    told[1] = packets.unwrap_or(0) as u64;
    told[2] = bytes as u64;
}
