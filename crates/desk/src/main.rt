// A console over every call of the library: a line in, a line out.
#![tactic(auto)]

mod asks;
mod command;
mod lines;
mod moves;
mod reads;
mod walks;
mod writes;

ghost use Rattle.session.specs.Meaning.{Ruled};
ghost use Rattle.session_owned.specs.Holding.{held_by};

use book::tables::OpeningRule;
use command::Command;
use lines::{Line, Lines};
use session_owned::Owned;
use std::io;

// The commands that ask a session.
fn ask(rt: &impl Print, owned: &Owned, command: Command, line: &[u8]) -> io::Result<()>
    requires { Ruled (held_by owned.now) }
{
    match command {
        Command::State => asks::state(rt, owned),
        Command::Unlisted => asks::unlisted(rt, owned),
        Command::Rule => asks::rule(rt, owned),
        Command::Lowest => asks::lowest(rt, owned),
        Command::Order => asks::order(rt, owned, line),
        Command::Best => asks::best(rt, owned, line),
        Command::Inside => asks::inside(rt, owned, line),
        Command::Requests => asks::requests(rt, owned, line),
        _ => plain(rt, command, line),
    }
}

// Those that need no session.
fn plain(rt: &impl Print, command: Command, line: &[u8]) -> io::Result<()> {
    match command {
        Command::Value => reads::value(rt, line),
        Command::Header => reads::header(rt, line),
        Command::Message => reads::message(rt, line),
        Command::Rewrite => writes::rewrite(rt, line),
        Command::Rehead => writes::rehead(rt, line),
        Command::Walk => walks::walk(rt, line),
        _ => reads::bad(rt),
    }
}

// The answer is written before the next line is waited for.
fn carry_out(rt: &impl Print, owned: &mut Owned, line: &[u8]) -> io::Result<()>
    requires { Ruled (held_by owned.old) }
    ensures { Ruled (held_by owned.new) }
{
    let Some(command) = command::command_of(line) else {
        return reads::bad(rt);
    };
    match command {
        Command::Open => moves::open(rt, owned, line),
        Command::Strict => moves::open_strict(rt, owned, line),
        Command::Take => moves::take(rt, owned, line),
        Command::Keep => moves::keep(rt, owned, line),
        Command::Apply => moves::apply(rt, owned, line),
        _ => ask(rt, owned, command, line),
    }
}

// No contract of a read promises the input's end, so a count of turns, far above the lines of any run, is what the
// proof ends by.
fn main(rt: HostRuntime) -> io::Result<()> {
    let mut input = rt.stdin();
    let mut lines = Lines::new();
    let mut owned = Owned::open(0, OpeningRule::Default);
    'turns: for _ in 0..u64::MAX {
        let Some(line) = lines.next(&mut input)? else {
            return Ok(());
        };
        match line {
            Line::Whole(line) => carry_out(&rt, &mut owned, line)?,
            Line::Long => reads::bad(&rt)?,
        }
    }
    Ok(())
}
