// Judging a packet by 1 to 7. 8 is about numbers, which only a session counts.
ghost use Rattle.std.specs.Prelude.{◌≡◌};
ghost use Rattle.packet.specs.Header.{told};
ghost use Rattle.packet_reader.specs.Reading.{judged_by, refusal_of};
ghost use Rattle.refusals.specs.Refusals.{refusal_in};

use packet::Rejection;
use refusals::Refusal;

// The first of 1 to 7 that applies, and the byte offset that it rests on.
pub fn judged(s: &[u8]) -> Result<(), Rejection>
    ensures { told result ≡ judged_by s.now }
{
    match packet_judge::judge(s) {
        Ok(()) => Ok(()),
        Err(rejection) => match rejection.refusal {
            Refusal::PastLastNumber => Ok(()),
            _ => Err(rejection),
        },
    }
}

// The call: the first of 1 to 7 that applies.
pub fn judge(s: &[u8]) -> Result<(), Refusal>
    ensures { refusal_in result ≡ refusal_of s.now }
{
    judged(s)?;
    Ok(())
}
