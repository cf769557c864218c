// The calls of one request stream over its record (document 01, "Calls and the host's memory"), by value: a number, and the record that it leaves.
#![tactic(auto)]

pub mod given;

ghost use Rattle.std.specs.Prelude.{◌≡◌, IfSome};
ghost use Rattle.record.specs.Kinds.{REQUEST};
ghost use Rattle.record.specs.Sound.{Fit, CellsIf, cells_in, stream, Written};
ghost use Rattle.requests.specs.Reply.{Open, reply, refused, left_by, fed_as, given_as, ended_as, reset_as, Answered, Keeps, Content};

use frames::{Cells, Event};
use record::{Reading, Record, Stream};

// number 0: accepted; 1: not an open request; 4, 5, 6; else the code. event 0: none, 1: content, 2: section bytes, 3: the last of them,
// 11: the request is whole, 12: freed. A part is len bytes of the piece from start on. used and heads: bytes and frame headers of the piece.
// Numbers (of rules), since the report that a host in C reads has them so.
#[derive(Clone, Copy)]
pub struct Reply {
    pub number: u64,
    pub event: u64,
    pub start: usize,
    pub len: u64,
    pub used: usize,
    pub heads: u64,
    pub row: Record,
}

// What a number leaves of a record: a stream fault frees it.
fn left(number: u64, r: Record) -> Record
    ensures { result ≡ left_by number r }
{
    match number {
        rules::REQUEST_REJECTED
        | rules::REQUEST_CANCELLED
        | rules::REQUEST_INCOMPLETE
        | rules::MESSAGE_ERROR => record::free(),
        _ => r,
    }
}

fn told(number: u64, event: u64, row: Record) -> Reply
    ensures { result ≡ reply number event 0 0 0 0 row }
{
    Reply {
        number,
        event,
        start: 0,
        len: 0,
        used: 0,
        heads: 0,
        row,
    }
}

// A refusal, and what it leaves of the record.
fn refused(number: u64, r: Record) -> Reply
    ensures { result ≡ refused number (left_by number r) }
{
    told(number, rules::NOTHING, left(number, r))
}

// Where a request is, of an open request's record.
fn opened(r: Record) -> Option<Cells>
    ensures { CellsIf (Open r) r result }
{
    match record::read(r) {
        Reading::Open(s) if s.kind == record::REQUEST => Some(s.cells),
        _ => None,
    }
}

// The record of a request's state.
fn kept(id: u64, cells: Cells) -> Record
    requires { Fit REQUEST id cells }
    ensures { Written (stream REQUEST id cells) result }
{
    record::row(Stream {
        kind: record::REQUEST,
        id,
        cells,
    })
}

// The peer resets the stream.
pub fn reset(r: Record) -> Reply
    ensures { Answered r (reset_as r) result }
{
    match opened(r) {
        Some(_) => told(rules::ACCEPTED, rules::FREED, record::free()),
        None => told(rules::NOT_OPEN, rules::NOTHING, r),
    }
}

// The peer ends the stream.
pub fn end(r: Record) -> Reply
    ensures { Answered r (ended_as r) result }
{
    let Some(c) = opened(r) else {
        return told(rules::NOT_OPEN, rules::NOTHING, r);
    };
    match frames::end(c) {
        rules::ACCEPTED => told(rules::ACCEPTED, rules::WHOLE, record::free()),
        number => refused(number, r),
    }
}

// One piece of the stream, with a frame allowance.
pub fn feed(r: Record, piece: &[u8], allow: u64) -> Reply
    ensures { Keeps r (fed_as r allow piece.now) result }
{
    let Some(c) = opened(r) else {
        return told(rules::NOT_OPEN, rules::NOTHING, r);
    };
    if c.mode == frames::HEADER_SECTION_DUE || c.mode == frames::TRAILERS_DUE {
        return told(rules::SECTION_DUE, rules::NOTHING, r);
    }
    let a = frames::feed(piece, c, allow);
    match a.event {
        Event::Fault(code) => Reply {
            used: a.used,
            heads: a.heads,
            ..refused(code.number(), r)
        },
        // No payload of a request is kept.
        Event::Nothing | Event::Kept(_) | Event::KeptPart => Reply {
            used: a.used,
            heads: a.heads,
            ..told(rules::ACCEPTED, rules::NOTHING, kept(r.id, a.cells))
        },
        Event::Content | Event::Section | Event::SectionEnd => Reply {
            number: rules::ACCEPTED,
            event: a.event.number(),
            start: a.start,
            len: a.len,
            used: a.used,
            heads: a.heads,
            row: kept(r.id, a.cells),
        },
    }
}

// The same, if it is content: accepted. None says nothing.
pub fn brisk(r: Record, piece: &[u8], allow: u64) -> Option<Reply>
    ensures { IfSome result (Content r allow piece.now) }
{
    if !record::in_body(r) {
        return None;
    }
    let b = frames::brisk(piece, record::cells_in(r), allow)?;
    Some(Reply {
        number: rules::ACCEPTED,
        event: rules::CONTENT,
        start: b.start,
        len: b.len,
        used: b.used,
        heads: b.heads,
        row: record::in_content(r, b.cells),
    })
}

// The section that is due.
pub fn give(r: Record, block: &[u8]) -> Reply
    ensures { Keeps r (given_as r block.now) result }
{
    let Some(c) = opened(r) else {
        return told(rules::NOT_OPEN, rules::NOTHING, r);
    };
    match given::give(c, block) {
        Ok(next) => told(rules::ACCEPTED, rules::NOTHING, kept(r.id, next)),
        Err(number) => refused(number, r),
    }
}
