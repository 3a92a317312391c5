// The best prices of many symbols and sides, over a session that lies where the host holds it. No order is copied but the
// one that is looked at.
#![tactic(auto)]

ghost use Rattle.std.specs.Prelude.{◌≡◌, List, ℕ, length};
ghost use Rattle.refusals.specs.Refusals.{refusal_in};
ghost use Rattle.session.specs.Meaning.{held, tables_in, Ruled};
ghost use Rattle.session.specs.Quoting.{numbers_of, quoted_of, quotes_after};

use book::asking::{Level, best};
use book_room::room::{LIVE, Room};
use refusals::Refusal;
use session::state::Session;

// A question's bytes, a symbol and a side, and the numbers of its reply.
const QUESTION: usize = 15;

const REPLY: usize = 4;

fn numbers(best: Result<Level, Refusal>) -> [u64; REPLY]
    ensures { result ≡ numbers_of best }
{
    match best {
        Ok(level) => [0, level.price, level.shares, level.orders],
        Err(refusal) => [refusal.number() as u64, 0, 0, 0],
    }
}

// Four numbers answer each question: the refusal, 0 where there is none, the price, the sum of shares there and the number
// of orders. Refused where the replies do not fit, and then nothing is written.
pub fn quotes(
    session: &Session,
    room: &Room,
    asked: &[u8],
    replies: &mut [u64],
) -> Result<(), Refusal>
    requires { (window : List ℕ) × Ruled (held session.now room.now window) }
    ensures refusal { refusal_in result ≡ quoted_of (length asked.now) (length replies.old) }
    ensures replies { replies.new ≡ quotes_after (tables_in session.now room.now) asked.now replies.old }
{
    let count = asked.len() / QUESTION;
    if replies.len() < REPLY * count {
        return Err(Refusal::NoRoom);
    }
    let orders = &session.orders[..room[LIVE] as usize];
    for k in 0..count {
        let at = QUESTION * k;
        let symbol = wire::text_at::<14>(asked, at);
        let answer = best(orders, symbol, asked[at + 14]);
        let place = REPLY * k;
        replies[place..place + REPLY].copy_from_slice(&numbers(answer));
    }
    Ok(())
}
