// What hosts in C and Rust call, over one session that they hold: the orders, and beside them the room and the window,
// which are lent with each call. Told numbers go into lists that are lent too. `exports_c` has each under the name and the
// calling convention of C.
#![tactic(auto)]

mod alone;
mod asking;
mod keeping;
mod passing;
mod sizes;
mod taking;

ghost use Rattle.std.specs.Prelude.{◌≡◌, ℕ, List, length};
ghost use Rattle.merge.specs.State.{apply_some, opened};
ghost use Rattle.session.specs.Meaning.{held, overnight, rep, tables_in, view, Ruled};
ghost use Rattle.session.specs.Bursts.{applied_by};
ghost use Rattle.book.specs.Asking.{order_asked};
ghost use Rattle.book.specs.Tables.{fresh};
ghost use Rattle.book.specs.declared.tables.OpeningRule.TheVariants.{Default, Strict};
ghost use Rattle.exports.specs.Handed.{answers_by, taken_by, taken_told};
ghost use Rattle.refusals.specs.Refusals.{refusal_in};
ghost use Rattle.session.specs.Quoting.{quoted_of, quotes_after};
ghost use Rattle.exports.specs.Told.{order_told};

pub use alone::{
    jangsebit_header, jangsebit_judge, jangsebit_message, jangsebit_value, jangsebit_walk,
    jangsebit_write_header, jangsebit_write_message,
};
pub use asking::{
    jangsebit_gap, jangsebit_inside, jangsebit_lowest, jangsebit_numbers, jangsebit_requests,
    jangsebit_rule, jangsebit_unlisted,
};
use book::tables::OpeningRule;
use book_room::room::{NEXT, Room};
pub use keeping::{jangsebit_keep, jangsebit_keep_packets};
pub use passing::jangsebit_pass;
use refusals::{Refusal, number_in};
use session::packets::most_due;
use session::state::Session;
use single::telling::tell;
pub use sizes::jangsebit_sizes;
use taking::{due_of, tell_all};
use window::places::Window;

// The version of these exports.
pub fn jangsebit_version() -> u32
    ensures { result ≡ 3 }
{
    3
}

// A fresh session for an opening number. Whatever stood in the three is gone. A type that is not in the table is
// counted apart.
pub fn jangsebit_open(session: &mut Session, room: &mut Room, window: &mut Window, number: u32)
    ensures opened { held session.new room.new window.new ≡ rep (opened (fresh Default) number) }
    ensures rule { Ruled (held session.new room.new window.new) }
{
    *session = Session::open(number, OpeningRule::Default, room, window);
}

// The same under the strict rule: a type that is not in the table is fault 1.
pub fn jangsebit_open_strict(
    session: &mut Session,
    room: &mut Room,
    window: &mut Window,
    number: u32,
)
    ensures opened { held session.new room.new window.new ≡ rep (opened (fresh Strict) number) }
    ensures rule { Ruled (held session.new room.new window.new) }
{
    *session = Session::open(number, OpeningRule::Strict, room, window);
}

// The first packets of the lent bytes, each behind its length of 2 bytes: as many as the count says, or all that there
// are. Where `single` is not 0 the bytes are one packet, and the count is not looked at: it is 1. Four numbers answer
// each: how many messages were applied, the refusal or 0, then next and end. Told are the refusal, how many packets were
// taken and how many bytes they are; 11 where the answers to so many do not fit, and then nothing is taken.
pub fn jangsebit_packets(
    session: &mut Session,
    room: &mut Room,
    window: &mut Window,
    packets: &[u8],
    single: u64,
    count: u64,
    answers: &mut [u64],
    told: &mut [u64; 3],
)
    requires { Ruled (held session.old room.old window.old) }
    ensures taken { held session.new room.new window.new ≡ rep (taken_by (view (held session.old room.old window.old)) single count packets.now (length answers.old)) }
    ensures answers { answers.new ≡ answers_by (view (held session.old room.old window.old)) single count packets.now answers.old }
    ensures told { told.new ≡ taken_told single count packets.now (length answers.old) told.old }
    ensures rule { Ruled (held session.new room.new window.new) }
{
    let one = single != 0;
    let Some(due) = due_of(one, count, answers.len()) else {
        tell_all(told, Err(Refusal::NoRoom), 0);
        return;
    };
    let ended = session_lent::run(session, room, window, packets, one, due, answers, 0);
    tell_all(told, Ok(ended.taken), ended.at);
}

// Applies up to so many of the messages that wait from next on, in their order. The answer is how many.
pub fn jangsebit_apply(
    session: &mut Session,
    room: &mut Room,
    window: &mut Window,
    count: u64,
) -> u64
    requires { Ruled (held session.old room.old window.old) }
    ensures applied { held session.new room.new window.new ≡ rep (apply_some overnight count (view (held session.old room.old window.old))) }
    ensures count { result ≡ applied_by (view (held session.old room.old window.old)) count }
    ensures rule { Ruled (held session.new room.new window.new) }
{
    let nothing = [0u8; 0];
    let mut answers = [0u64; 0];
    let before = room[NEXT];
    let due = most_due(count);
    session_lent::run(session, room, window, &nothing, false, 0, &mut answers, due);
    room[NEXT] - before
}

// The live order of an id: the id's value, price, shares, firm, the symbol's first eight bytes and its last eight as
// numbers, side, unsolicited. The answer is the refusal: 12 where the id breaks its rule, 13 where no such order is
// live, else 0.
pub fn jangsebit_order(session: &Session, room: &Room, id: &[u8; 14], told: &mut [u64; 8]) -> u64
    requires { (window : List ℕ) × Ruled (held session.now room.now window) }
    ensures refusal { result ≡ refusal_in (order_asked (tables_in session.now room.now) id.now) }
    ensures told { told.new ≡ order_told (order_asked (tables_in session.now room.now) id.now) told.old }
{
    let answer = asking::order(session, room, id);
    tell(told, answer.map(asking::order_numbers))
}

// The best prices of many symbols and sides, 15 bytes a question. Four numbers answer each: the refusal or 0, the
// price, the sum of shares there and the number of orders. The answer is 11 where the replies do not fit, and then
// nothing is written, else 0.
pub fn jangsebit_quotes(session: &Session, room: &Room, asked: &[u8], replies: &mut [u64]) -> u64
    requires { (window : List ℕ) × Ruled (held session.now room.now window) }
    ensures refusal { result ≡ quoted_of (length asked.now) (length replies.old) }
    ensures replies { replies.new ≡ quotes_after (tables_in session.now room.now) asked.now replies.old }
{
    let quoted = session_quotes::quotes(session, room, asked, replies);
    number_in(&quoted) as u64
}
