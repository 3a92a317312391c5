// Order ids: the venue's own example, P1 to P4, and every digit at a place.
use printing::answers;
use printing::words::quoted;
use std::io;

fn case(rt: &impl Print, line: &[u8]) -> io::Result<()> {
    if line.len() == 14 {
        print!(rt; "id")?;
        quoted(rt, line)?;
        print!(rt; ": ")?;
        answers::value(rt, fields::id::value(wire::text_at(line, 0)))?;
    }
    Ok(())
}

pub fn run(rt: &impl Print) -> io::Result<()> {
    let ids = "7A400CY528L9SN\n\
        000000000010ZZ\n\
        ZZZZZZZZZZZZ00\n\
        7A400Ca528L9SN\n\
        7A400CY528L9aa\n\
        00000000000000\n\
        0123456789ABab\n\
        CDEFGHIJKLMNab\n\
        OPQRSTUVWXYZab\n\
        0000000000/000\n\
        00000000000:00\n\
        @0000000000000\n\
        [0000000000000\n\
        000000000000~ \n";
    for id in ids.lines() {
        case(rt, id.as_bytes())?;
    }
    Ok(())
}
