// RFC 9000's sample integers and document 01's worked bytes, one line each; what is to come is in the file stdout.
#![tactic(auto)]

use control::settings::Settings;
use rules::codes::House;
use section::{Fault, Sound};
use std::io;
use varint::Whole;
use wire::ids::StreamId;

// Two digits each.
fn hex(rt: &impl Print, bytes: &[u8]) -> io::Result<()> {
    for &byte in bytes {
        print!(rt; "{byte:02x}")?;
    }
    Ok(())
}

// ---- reading

fn read(rt: &impl Print, bytes: &[u8]) -> io::Result<()> {
    hex(rt, bytes)?;
    match varint::read(bytes, 0) {
        None => println!(rt; " is cut"),
        Some(Whole { value, next }) => println!(rt; " reads {value}, size {next}"),
    }
}

fn integers(rt: &impl Print) -> io::Result<()> {
    read(rt, b"\xc2\x19\x7c\x5e\xff\x14\xe8\x8c")?;
    read(rt, b"\x9d\x7f\x3e\x7d")?;
    read(rt, b"\x7b\xbd")?;
    read(rt, b"\x25")?;
    read(rt, b"\x40\x25")?;
    read(rt, b"\x9d\x7f\x3e")?;
    read(rt, b"")
}

// ---- writing, with the whole room behind it: what is not written stays ee

fn told(rt: &impl Print, wrote: Result<usize, House>, room: &[u8]) -> io::Result<()> {
    match wrote {
        Err(refusal) => {
            let number = refusal.number();
            print!(rt; " is refused, {number}: ")?;
        }
        Ok(count) => print!(rt; " takes {count}: ")?,
    }
    hex(rt, room)?;
    println!(rt; "")
}

fn integer(rt: &impl Print, value: u64, room: &mut [u8]) -> io::Result<()> {
    print!(rt; "{value}")?;
    told(rt, varint::write(value, room), room)
}

fn header(rt: &impl Print, ftype: u64, len: u64, room: &mut [u8]) -> io::Result<()> {
    print!(rt; "header {ftype} {len}")?;
    told(rt, wire::write_header(ftype, len, room), room)
}

fn integer_frame(rt: &impl Print, ftype: u64, value: u64, room: &mut [u8]) -> io::Result<()> {
    print!(rt; "integer frame {ftype} {value}")?;
    told(rt, wire::write_integer_frame(ftype, value, room), room)
}

fn opening(rt: &impl Print, room: &mut [u8]) -> io::Result<()> {
    print!(rt; "opening")?;
    told(rt, wire::write_opening(room), room)
}

fn goaway(rt: &impl Print, sent: Option<u64>, id: u64, room: &mut [u8]) -> io::Result<()> {
    print!(rt; "goaway {id}")?;
    if let Some(up) = sent {
        print!(rt; " after {up}")?;
    }
    told(
        rt,
        wire::write_goaway(sent.map(|up| StreamId(up)), StreamId(id), room),
        room,
    )
}

fn writes(rt: &impl Print) -> io::Result<()> {
    // 37, and RFC 9000's table, for a bench hand: the top value of each row and the one above it
    for value in [
        37,
        63,
        64,
        16383,
        16384,
        1073741823,
        1073741824,
        4611686018427387903,
        4611686018427387904,
    ] {
        integer(rt, value, &mut [0xee; 10])?;
    }
    opening(rt, &mut [0xee; 13])?;
    header(rt, 1, 16384, &mut [0xee; 6])?;
    header(rt, 4611686018427387904, 0, &mut [0xee; 6])?;
    integer_frame(rt, 13, 37, &mut [0xee; 6])?;
    integer_frame(rt, 7, 4611686018427387904, &mut [0xee; 6])?;
    goaway(rt, None, 8, &mut [0xee; 6])?;
    goaway(rt, None, 6, &mut [0xee; 6])?;
    goaway(rt, Some(8), 8, &mut [0xee; 6])?;
    goaway(rt, Some(8), 12, &mut [0xee; 6])?;
    // rooms that are one byte too short
    integer(rt, 4611686018427387903, &mut [0xee; 7])?;
    integer(rt, 16384, &mut [0xee; 3])?;
    header(rt, 1, 16384, &mut [0xee; 4])?;
    integer_frame(rt, 13, 16384, &mut [0xee; 5])?;
    opening(rt, &mut [0xee; 11])?;
    goaway(rt, None, 8, &mut [0xee; 2])?;
    // 8 comes before 7
    integer(rt, 4611686018427387904, &mut [0xee; 1])?;
    goaway(rt, None, 6, &mut [0xee; 1])
}

// ---- SETTINGS, and payloads that are one integer

fn kept(rt: &impl Print, kept: Settings) -> io::Result<()> {
    match kept.size {
        None => print!(rt; "size unlimited")?,
        Some(size) => print!(rt; "size {size}")?,
    }
    let Settings {
        capacity,
        blocked,
        ..
    } = kept;
    println!(rt; ", capacity {capacity}, blocked {blocked}")
}

fn settings(rt: &impl Print, payload: &[u8]) -> io::Result<()> {
    print!(rt; "settings ")?;
    hex(rt, payload)?;
    print!(rt; ": ")?;
    match control::settings::judge(payload) {
        Err(code) => {
            let number = code.number();
            println!(rt; "{number:04x}")
        }
        Ok(settings) => kept(rt, settings),
    }
}

fn only(rt: &impl Print, payload: &[u8]) -> io::Result<()> {
    print!(rt; "only ")?;
    hex(rt, payload)?;
    match control::settings::only(payload) {
        Some(value) => println!(rt; ": {value}"),
        None => println!(rt; ": not"),
    }
}

fn payloads(rt: &impl Print) -> io::Result<()> {
    settings(rt, b"\x06\x01\x06\x01")?;
    settings(rt, b"\x03\x00")?;
    settings(rt, b"\x06")?;
    settings(rt, b"\x01\x00\x06\x80\x00\x40\x00\x07\x00")?;
    settings(rt, b"\x00\x05\x07\x40\x25\x01\x09")?;
    settings(rt, b"")?;
    only(rt, b"\x40\x25")?;
    only(rt, b"\x40\x25\x00")?;
    only(rt, b"\x40")
}

// ---- section blocks

fn line(rt: &impl Print, block: &[u8], at: usize) -> io::Result<()> {
    print!(rt; "at {at}: ")?;
    match fields::line_at(block, at) {
        Ok(None) => println!(rt; "end"),
        Err(_) => println!(rt; "unreadable"),
        Ok(Some(line)) => {
            rt.write_all(&block[line.name..line.value])?;
            print!(rt; " is ")?;
            rt.write_all(&block[line.value..line.next])?;
            let next = line.next;
            println!(rt; ", next {next}")
        }
    }
}

fn refused(rt: &impl Print, fault: Fault) -> io::Result<()> {
    match fault {
        Fault::Unreadable => println!(rt; ": unreadable"),
        Fault::Refused(_) => println!(rt; ": refused"),
    }
}

fn header_section(rt: &impl Print, block: &[u8]) -> io::Result<()> {
    print!(rt; "header section ")?;
    hex(rt, block)?;
    match section::header_section(block) {
        Err(fault) => refused(rt, fault),
        Ok(Sound { method, stated }) => {
            print!(rt; ": sound, method {} to {}, ", method.from, method.to)?;
            match stated {
                None => println!(rt; "no length"),
                Some(length) => println!(rt; "length {length}"),
            }
        }
    }
}

fn trailers(rt: &impl Print, block: &[u8]) -> io::Result<()> {
    print!(rt; "trailers ")?;
    hex(rt, block)?;
    match section::trailers(block) {
        Err(fault) => refused(rt, fault),
        Ok(()) => println!(rt; ": sound"),
    }
}

// Document 01's block; then with `:scheme` http, `:path` /, `host` a and `content-length` 3 behind it.
fn blocks(rt: &impl Print) -> io::Result<()> {
    let get = b"\x0e\x00\x01\x00\x07\x00:methodGET";
    line(rt, get, 0)?;
    line(rt, get, 16)?;
    header_section(rt, get)?;
    header_section(
        rt,
        b"\x0e\x00\x01\x00\x07\x00:methodGET\x0f\x00\x01\x00\x07\x00:schemehttp\x0a\x00\x01\x00\x05\x00:path/\x09\x00\x01\x00\x04\x00hosta\x13\x00\x01\x00\x0e\x00content-length3",
    )?;
    header_section(rt, b"\x0e\x00\x02\x00\x07\x00:methodGET")?;
    trailers(rt, get)?;
    trailers(rt, b"")?;
    trailers(rt, b"\x03\x00\x01\x00\x00")
}

fn main(rt: HostRuntime) -> io::Result<()> {
    integers(&rt)?;
    writes(&rt)?;
    payloads(&rt)?;
    blocks(&rt)
}
