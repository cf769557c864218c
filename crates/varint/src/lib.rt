// Variable-length integers (document 01, "Integers"; RFC 9000 section 16): read a byte at a time, read whole, and written in the shortest form.
#![tactic(auto)]

ghost use Rattle.std.specs.Prelude.{◌≡◌, ◌/◌, ◌%◌, ◌^◌, ◌<◌, ◌≤◌, length, drop};
ghost use Rattle.std.proofs.lemmas.List.Edits.{sets};
ghost use Rattle.rules.specs.Integers.{extra, integer, written};
ghost use Rattle.rules.specs.Writer.{write_integer};
ghost use Rattle.meaning.specs.Machine.{after};
ghost use Rattle.varint.specs.ByByte.{fresh_part, Good, step_as, Stepped};
ghost use Rattle.varint.specs.Whole.{IsWhole, whole_is, Ended, Valued};
ghost use Rattle.varint.specs.Shortest.{form_of, sized, bytes_of, Room};
ghost use Rattle.varint.specs.Write.{Meets};

use rules::codes::House;
use std::ops::ControlFlow;

// ---- a byte at a time

// An integer of which some bytes were read: their value, and how many bytes are due. due 0: no byte was read.
#[derive(Clone, Copy)]
pub struct Part {
    pub acc: u64,
    pub due: u64,
}

// How many bytes follow a first byte x.
fn follow(x: u64) -> u64
    requires { x < 256 }
    ensures { result ≡ extra x }
{
    (1u64 << (x / 64)) - 1
}

// The value so far, with k bytes to come.
fn onward(k: u64, v: u64) -> ControlFlow<u64, Part>
    ensures { result ≡ step_as (after k v) }
{
    if k == 0 {
        ControlFlow::Break(v)
    } else {
        ControlFlow::Continue(Part { acc: v, due: k })
    }
}

pub fn fresh() -> Part
    ensures { result ≡ fresh_part }
{
    Part { acc: 0, due: 0 }
}

// One byte more.
pub fn read_step(p: Part, b: u8) -> ControlFlow<u64, Part>
    requires { Good p }
    ensures { Stepped p b result }
{
    let x = u64::from(b);
    if p.due == 0 {
        onward(follow(x), x % 64)
    } else {
        onward(p.due - 1, p.acc * 256 + x)
    }
}

// ---- whole in a slice

// An integer that is whole, and the place behind it.
#[derive(Clone, Copy)]
pub struct Whole {
    pub value: u64,
    pub next: usize,
}

// Where the integer at at ends, if it is whole in s.
pub fn ends(s: &[u8], at: usize) -> Option<usize>
    ensures { Ended s.now at result }
{
    let x = u64::from(*s.get(at)?);
    if x < 64 {
        return Some(at + 1);
    }
    let m = follow(x) as usize;
    if s.len() - at <= m {
        None
    } else {
        Some(at + 1 + m)
    }
}

// The value of the integer at at, by any number of bytes.
fn long(s: &[u8], at: usize) -> u64
    requires { IsWhole s.now at }
    ensures { Valued s.now at result }
{
    let x = u64::from(s[at]);
    let from = at + 1;
    let due = follow(x) as usize;
    let mut acc = x % 64;
    for b in &s[from..from + due] {
        acc = acc * 256 + u64::from(*b);
    }
    acc
}

// The value of the integer at at, which `ends` found to be whole. Two bytes have a way of their own: most lengths of DATA are so written.
// Inlined into the readers: a call costs a feed of small frames a twelfth of its instructions.
#[inline(always)]
pub fn value(s: &[u8], at: usize) -> u64
    requires { IsWhole s.now at }
    ensures { Valued s.now at result }
{
    let x = u64::from(s[at]);
    if x < 64 {
        return x;
    }
    if x < 128 {
        return (x - 64) * 256 + u64::from(s[at + 1]);
    }
    long(s, at)
}

// The integer at at.
pub fn read(s: &[u8], at: usize) -> Option<Whole>
    ensures { whole_is s.now result ≡ integer at (drop at s.now) }
{
    let next = ends(s, at)?;
    Some(Whole {
        value: value(s, at),
        next,
    })
}

// ---- the shortest form

// 2^62-1: no form holds more.
pub const LARGEST: u64 = 4611686018427387903;

// A form of an integer: its top two bits, and its size in bytes.
#[derive(Clone, Copy)]
struct Form {
    mark: u64,
    size: usize,
}

// The shortest form that holds v, by RFC 9000's table, a row a branch.
fn form_of(v: u64) -> Option<Form>
    ensures { result ≡ form_of v }
{
    if v <= 63 {
        Some(Form { mark: 0, size: 1 })
    } else if v <= 16383 {
        Some(Form { mark: 1, size: 2 })
    } else if v <= 1073741823 {
        Some(Form { mark: 2, size: 4 })
    } else if v <= LARGEST {
        Some(Form { mark: 3, size: 8 })
    } else {
        None
    }
}

// How many bytes v takes; none above 2^62-1.
pub fn size(v: u64) -> Option<usize>
    ensures { result ≡ sized v }
{
    Some(form_of(v)?.size)
}

// Stores v in its shortest form from at on: `size` gave a size, and the room reaches so far.
// Inlined into the writers: a call costs a header a third more instructions.
#[inline(always)]
pub fn put(v: u64, room: &mut [u8], at: usize)
    requires { Room v at room.old }
    ensures { room.new ≡ sets room.old at (bytes_of (written v)) }
{
    // One byte has a way of its own: most types and lengths are so written.
    if v < 64 {
        room[at] = v as u8;
        return;
    }
    let form = form_of(v).unwrap();
    let bytes = (v + (form.mark << (8 * form.size - 2))).to_be_bytes();
    // A copy for each size, so that each is a store: one whose length is told only as it runs is a call of the C library's memcpy.
    match form.size {
        2 => room[at..at + 2].copy_from_slice(&bytes[6..]),
        4 => room[at..at + 4].copy_from_slice(&bytes[4..]),
        8 => room[at..at + 8].copy_from_slice(&bytes),
        _ => unreachable!(),
    }
}

// v in its shortest form at the start of the room: BadValue above 2^62-1, then RoomShort where the room is too short.
// It reads back (meaning, WriterLaws, integer_back).
pub fn write(v: u64, room: &mut [u8]) -> Result<usize, House>
    ensures { Meets (write_integer (length room.old) v) room.old result room.new }
{
    let n = size(v).ok_or(House::BadValue)?;
    if room.len() < n {
        return Err(House::RoomShort);
    }
    put(v, room, 0);
    Ok(n)
}
