// Drives the calls by the script on standard input. It reads, and prints what `replaying` says.
#![tactic(auto)]

use listing::Text;
use std::io;
use std::io::Read;

fn play(rt: &impl Print, script: &[u8], scratch: &mut [u8]) -> io::Result<()> {
    let mut text = Text::new();
    let mut next = Some(replaying::start());
    while let Some(step) = next {
        next = replaying::next(script, step, scratch, &mut text);
        rt.write_all(text.as_bytes())?;
    }
    Ok(())
}

// The array as a slice, in a function of its own: lent where it is made, its 524,288 bytes are counted one by one, and no proof closes.
fn lend_scratch(rt: &impl Print, script: &[u8], scratch: &mut [u8; 524288]) -> io::Result<()> {
    play(rt, script, scratch)
}

fn begin(rt: &impl Print, script: &[u8]) -> io::Result<()> {
    let mut scratch = [0u8; 524288];
    lend_scratch(rt, script, &mut scratch)
}

fn run(rt: &(impl Print + Eprint), reader: &mut impl Read, room: &mut [u8]) -> io::Result<()> {
    match input::read_all(reader, room) {
        Ok(n) => begin(rt, &room[..n]),
        Err(_) => eprintln!(rt; "replay: standard input cannot be read"),
    }
}

// The same of the input.
fn lend(
    rt: &(impl Print + Eprint),
    reader: &mut impl Read,
    room: &mut [u8; 1048577],
) -> io::Result<()> {
    run(rt, reader, room)
}

fn main(rt: HostRuntime) -> io::Result<()> {
    // one byte more than is played, so that a longer input shows
    let mut room = [0u8; 1048577];
    lend(&rt, &mut rt.stdin(), &mut room)
}
