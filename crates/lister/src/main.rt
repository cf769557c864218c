// Lists the frames of the request stream on standard input (document 01, "The writer and the lister"). It reads, and prints what `listing`
// says.
#![tactic(auto)]

use listing::Text;
use std::io;
use std::io::Read;

fn list(rt: &impl Print, input: &[u8]) -> io::Result<()> {
    let mut text = Text::new();
    let mut next = Some(listing::start());
    while let Some(place) = next {
        let line = listing::next(input, place);
        line.write(&mut text);
        rt.write_all(text.as_bytes())?;
        next = line.next();
    }
    Ok(())
}

fn run(rt: &(impl Print + Eprint), reader: &mut impl Read, room: &mut [u8]) -> io::Result<()> {
    match input::read_all(reader, room) {
        Ok(n) => list(rt, &room[..n]),
        Err(_) => eprintln!(rt; "lister: standard input cannot be read"),
    }
}

fn main(rt: HostRuntime) -> io::Result<()> {
    // one byte more than is listed, so that a longer input shows
    let mut room = [0u8; 65537];
    run(&rt, &mut rt.stdin(), &mut room)
}
