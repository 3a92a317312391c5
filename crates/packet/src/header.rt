// The packet header.
ghost use Rattle.std.specs.Prelude.{◌≡◌, ◌≤◌, Err, length};
ghost use Rattle.packet.specs.Header.{decided, flag_tests, header_in, header_of, header_tests, judged, told};

use refusals::Refusal;

// A packet's header, which is the shortest packet, and the longest packet, in bytes.
pub const HEADER: usize = 12;

pub const LONGEST: usize = 1472;

// The same as PacketSize has them.
pub const BARE: u16 = HEADER as u16;

pub const FULL: u16 = LONGEST as u16;

#[derive(Clone, Copy)]
pub struct Header {
    pub size: u16,
    pub seq: u32,
    pub flag: u8,
    pub messages: u8,
    pub milli: u32,
}

// The refusal of the test that decides, and the byte offset that it rests on.
#[derive(Clone, Copy, Debug, PartialEq, Eq)]
pub struct Rejection {
    pub refusal: Refusal,
    pub offset: usize,
}

impl From<Rejection> for Refusal {
    ghost from_gives = { λ rejection refusal. refusal ≡ rejection.refusal };

    fn from(rejection: Rejection) -> Refusal {
        rejection.refusal
    }
}

// A part.
pub fn rejected(refusal: Refusal, offset: usize) -> Result<(), Rejection>
    ensures { result ≡ Err (record { refusal = refusal; offset = offset }) }
{
    Err(Rejection { refusal, offset })
}

// A part: the fields where 12 bytes are there.
pub fn fields(s: &[u8]) -> Header
    requires { 12 ≤ length s.now }
    ensures { result ≡ header_in s.now }
{
    Header {
        size: wire::number_at(s, 0),
        seq: wire::number_at(s, 2),
        flag: wire::number_at(s, 6),
        messages: wire::number_at(s, 7),
        milli: wire::number_at(s, 8),
    }
}

// Three numbers and not a `Header`: the clause asks nothing of the number and the milliseconds, and the tests of a header to write take no more.
// A part: the first of 4, 5 and 6 that applies to the fields.
pub fn flagged(size: u16, flag: u8, messages: u8) -> Result<(), Rejection>
    ensures { told result ≡ judged (decided (flag_tests size flag messages)) }
{
    if flag / 2 != 0 {
        return rejected(Refusal::ReservedFlag, 6);
    }
    if flag % 2 == 1 {
        if size != BARE {
            return rejected(Refusal::BadHeartbeat, 0);
        }
        if messages != 0 {
            return rejected(Refusal::BadHeartbeat, 7);
        }
        return Ok(());
    }
    if messages == 0 {
        return rejected(Refusal::NoMessages, 7);
    }
    Ok(())
}

// A part: the first of 1 to 6 that applies.
pub fn tested(s: &[u8]) -> Result<(), Rejection>
    ensures { told result ≡ judged (decided (header_tests s.now)) }
{
    let n = s.len();
    if n < HEADER {
        return rejected(Refusal::TooShort, 0);
    }
    if LONGEST < n {
        return rejected(Refusal::TooLong, 0);
    }
    let header = fields(s);
    if header.size as usize != n {
        return rejected(Refusal::WrongSize, 0);
    }
    flagged(header.size, header.flag, header.messages)
}

// The call: every byte string has its answer. The lent bytes are the whole packet.
pub fn read_header(s: &[u8]) -> Result<Header, Refusal>
    ensures { result ≡ header_of s.now }
{
    tested(s)?;
    Ok(fields(s))
}
