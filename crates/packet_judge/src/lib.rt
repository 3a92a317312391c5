// Judging a packet by 1 to 8, with no session: the first test that applies decides, and the answer has the byte offset
// that it rests on (packet/specs/Judging). The walk over its messages is a part.
#![tactic(auto)]

ghost use Rattle.std.specs.Prelude.{◌≡◌};
ghost use Rattle.packet.specs.Header.{decided, judged, told};
ghost use Rattle.packet.specs.Judging.{body_tests, judge_of};

use packet::{Rejection, header};
use refusals::Refusal;

pub mod walk;

// A part: the first of 7 and 8 that applies to a packet that is no heartbeat.
fn body(fault: Option<usize>, seq: u32, messages: u8) -> Result<(), Rejection>
    ensures { told result ≡ judged (decided (body_tests fault seq messages)) }
{
    match fault {
        Some(at) => header::rejected(Refusal::BadMessage, at),
        None => {
            if 4294967296 < (seq as u64) + (messages as u64) {
                return header::rejected(Refusal::PastLastNumber, 2);
            }
            Ok(())
        }
    }
}

// The call: the first of 1 to 8 that applies, and the byte offset that it rests on.
pub fn judge(s: &[u8]) -> Result<(), Rejection>
    ensures { told result ≡ judge_of s.now }
{
    header::tested(s)?;
    let head = header::fields(s);
    if head.flag % 2 == 1 {
        return Ok(());
    }
    let fault = walk::walk(s, head.messages);
    body(fault, head.seq, head.messages)
}
