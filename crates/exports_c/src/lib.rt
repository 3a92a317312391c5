// The exports for C and Rust, each under the name and the calling convention of C: every one is the function of its name
// in `exports`, under the same clauses. The archive for hosts is made of this crate.
#![tactic(auto)]

mod alone;
mod asking;
mod keeping;
mod passing;
mod sizes;

ghost use Rattle.std.specs.Prelude.{◌≡◌, ℕ, List, length};
ghost use Rattle.merge.specs.State.{apply_some, opened};
ghost use Rattle.session.specs.Meaning.{held, overnight, rep, tables_in, view, Ruled};
ghost use Rattle.session.specs.Bursts.{applied_by};
ghost use Rattle.book.specs.Asking.{order_asked};
ghost use Rattle.book.specs.Tables.{fresh};
ghost use Rattle.book.specs.declared.tables.OpeningRule.TheVariants.{Default, Strict};
ghost use Rattle.exports.specs.Handed.{answers_by, taken_by, taken_told};
ghost use Rattle.refusals.specs.Refusals.{refusal_in};
ghost use Rattle.session.specs.Quoting.{quoted_of, quotes_after};
ghost use Rattle.exports.specs.Told.{order_told};

pub use alone::{
    jangsebit_header, jangsebit_judge, jangsebit_message, jangsebit_value, jangsebit_walk,
    jangsebit_write_header, jangsebit_write_message,
};
pub use asking::{
    jangsebit_gap, jangsebit_inside, jangsebit_lowest, jangsebit_numbers, jangsebit_requests,
    jangsebit_rule, jangsebit_unlisted,
};
use book_room::room::Room;
pub use keeping::{jangsebit_keep, jangsebit_keep_packets};
pub use passing::jangsebit_pass;
use session::state::Session;
pub use sizes::jangsebit_sizes;
use window::places::Window;

// The version of these exports.
#[unsafe(no_mangle)]
pub extern "C" fn jangsebit_version() -> u32
    ensures { result ≡ 3 }
{
    exports::jangsebit_version()
}

// A fresh session for an opening number. Whatever stood in the three is gone. A type that is not in the table is
// counted apart.
#[unsafe(no_mangle)]
pub extern "C" fn jangsebit_open(
    session: &mut Session,
    room: &mut Room,
    window: &mut Window,
    number: u32,
)
    ensures opened { held session.new room.new window.new ≡ rep (opened (fresh Default) number) }
    ensures rule { Ruled (held session.new room.new window.new) }
{
    exports::jangsebit_open(session, room, window, number);
}

// The same under the strict rule: a type that is not in the table is fault 1.
#[unsafe(no_mangle)]
pub extern "C" fn jangsebit_open_strict(
    session: &mut Session,
    room: &mut Room,
    window: &mut Window,
    number: u32,
)
    ensures opened { held session.new room.new window.new ≡ rep (opened (fresh Strict) number) }
    ensures rule { Ruled (held session.new room.new window.new) }
{
    exports::jangsebit_open_strict(session, room, window, number);
}

// The first packets of the lent bytes, each behind its length of 2 bytes: as many as the count says, or all that there
// are. Where `single` is not 0 the bytes are one packet, and the count is not looked at: it is 1. Four numbers answer
// each: how many messages were applied, the refusal or 0, then next and end. Told are the refusal, how many packets were
// taken and how many bytes they are; 11 where the answers to so many do not fit, and then nothing is taken.
#[unsafe(no_mangle)]
pub extern "C" fn jangsebit_packets(
    session: &mut Session,
    room: &mut Room,
    window: &mut Window,
    packets: &[u8],
    single: u64,
    count: u64,
    answers: &mut [u64],
    told: &mut [u64; 3],
)
    requires { Ruled (held session.old room.old window.old) }
    ensures taken { held session.new room.new window.new ≡ rep (taken_by (view (held session.old room.old window.old)) single count packets.now (length answers.old)) }
    ensures answers { answers.new ≡ answers_by (view (held session.old room.old window.old)) single count packets.now answers.old }
    ensures told { told.new ≡ taken_told single count packets.now (length answers.old) told.old }
    ensures rule { Ruled (held session.new room.new window.new) }
{
    exports::jangsebit_packets(session, room, window, packets, single, count, answers, told);
}

// Applies up to so many of the messages that wait from next on, in their order. The answer is how many.
#[unsafe(no_mangle)]
pub extern "C" fn jangsebit_apply(
    session: &mut Session,
    room: &mut Room,
    window: &mut Window,
    count: u64,
) -> u64
    requires { Ruled (held session.old room.old window.old) }
    ensures applied { held session.new room.new window.new ≡ rep (apply_some overnight count (view (held session.old room.old window.old))) }
    ensures count { result ≡ applied_by (view (held session.old room.old window.old)) count }
    ensures rule { Ruled (held session.new room.new window.new) }
{
    exports::jangsebit_apply(session, room, window, count)
}

// The live order of an id: the id's value, price, shares, firm, the symbol's first eight bytes and its last eight as
// numbers, side, unsolicited. The answer is the refusal: 12 where the id breaks its rule, 13 where no such order is
// live, else 0.
#[unsafe(no_mangle)]
pub extern "C" fn jangsebit_order(
    session: &Session,
    room: &Room,
    id: &[u8; 14],
    told: &mut [u64; 8],
) -> u64
    requires { (window : List ℕ) × Ruled (held session.now room.now window) }
    ensures refusal { result ≡ refusal_in (order_asked (tables_in session.now room.now) id.now) }
    ensures told { told.new ≡ order_told (order_asked (tables_in session.now room.now) id.now) told.old }
{
    exports::jangsebit_order(session, room, id, told)
}

// The best prices of many symbols and sides, 15 bytes a question. Four numbers answer each: the refusal or 0, the
// price, the sum of shares there and the number of orders. The answer is 11 where the replies do not fit, and then
// nothing is written, else 0.
#[unsafe(no_mangle)]
pub extern "C" fn jangsebit_quotes(
    session: &Session,
    room: &Room,
    asked: &[u8],
    replies: &mut [u64],
) -> u64
    requires { (window : List ℕ) × Ruled (held session.now room.now window) }
    ensures refusal { result ≡ quoted_of (length asked.now) (length replies.old) }
    ensures replies { replies.new ≡ quotes_after (tables_in session.now room.now) asked.now replies.old }
{
    exports::jangsebit_quotes(session, room, asked, replies)
}
