// Which command a line is: by its first word and its count of words.
ghost use Rattle.std.specs.Prelude.{◌≡◌};
ghost use Rattle.text.specs.Words.{count_of, word_of};
ghost use Rattle.desk.specs.Commands.{bare_command, bytes_command, command_of, is_name, named_of, one_command, three_command, two_command};

use text::words;

#[derive(Clone, Copy)]
pub enum Command {
    Open,
    Strict,
    Take,
    Keep,
    Apply,
    State,
    Unlisted,
    Rule,
    Lowest,
    Order,
    Best,
    Inside,
    Value,
    Requests,
    Header,
    Message,
    Rewrite,
    Rehead,
    Walk,
}

pub fn command_of(line: &[u8]) -> Option<Command>
    ensures { result ≡ command_of (count_of line.now) (word_of line.now 0) }
{
    let word = words::word(line, 0);
    match words::count(line) {
        1 => bare_command(word),
        2 => two_command(word),
        3 => three_command(word),
        4 => named(word, b"rewrite", Command::Rewrite),
        7 => named(word, b"rehead", Command::Rehead),
        _ => None,
    }
}

// A chain of tests and no match on byte strings: there the proof of the names of six letters and more didn't close.
fn is_name(word: &[u8], name: &[u8]) -> bool
    ensures { result ≡ is_name word.now name.now }
{
    check::same(word, name)
}

fn named(word: &[u8], name: &[u8], command: Command) -> Option<Command>
    ensures { result ≡ named_of word.now name.now command }
{
    if is_name(word, name) {
        return Some(command);
    }
    None
}

// The commands of one word.
fn bare_command(word: &[u8]) -> Option<Command>
    ensures { result ≡ bare_command word.now }
{
    if is_name(word, b"state") {
        return Some(Command::State);
    }
    if is_name(word, b"unlisted") {
        return Some(Command::Unlisted);
    }
    if is_name(word, b"rule") {
        return Some(Command::Rule);
    }
    named(word, b"lowest", Command::Lowest)
}

// Those of two: keeping and applying, each by itself, and the others.
fn two_command(word: &[u8]) -> Option<Command>
    ensures { result ≡ two_command word.now }
{
    if is_name(word, b"keep") {
        return Some(Command::Keep);
    }
    if is_name(word, b"apply") {
        return Some(Command::Apply);
    }
    one_command(word)
}

// Those of three: an opening by a rule, and the best price of a side.
fn three_command(word: &[u8]) -> Option<Command>
    ensures { result ≡ three_command word.now }
{
    if is_name(word, b"open") {
        return Some(Command::Strict);
    }
    named(word, b"best", Command::Best)
}

fn one_command(word: &[u8]) -> Option<Command>
    ensures { result ≡ one_command word.now }
{
    if is_name(word, b"open") {
        return Some(Command::Open);
    }
    if is_name(word, b"take") {
        return Some(Command::Take);
    }
    if is_name(word, b"order") {
        return Some(Command::Order);
    }
    if is_name(word, b"inside") {
        return Some(Command::Inside);
    }
    if is_name(word, b"requests") {
        return Some(Command::Requests);
    }
    bytes_command(word)
}

// Those that need no session.
fn bytes_command(word: &[u8]) -> Option<Command>
    ensures { result ≡ bytes_command word.now }
{
    if is_name(word, b"value") {
        return Some(Command::Value);
    }
    if is_name(word, b"header") {
        return Some(Command::Header);
    }
    if is_name(word, b"message") {
        return Some(Command::Message);
    }
    named(word, b"walk", Command::Walk)
}
