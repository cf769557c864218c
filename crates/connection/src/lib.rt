// The connection record and every call by value (document 01, "Calls and the host's memory").
#![tactic(auto)]

pub mod doors;

ghost use Rattle.std.specs.Prelude.{◌≡◌, length};
ghost use Rattle.record.specs.Sound.{Decides};
ghost use Rattle.connection.specs.Whose.{Wanted};
ghost use Rattle.record.specs.Row.{record_at, no_cells};
ghost use Rattle.rules.specs.Numbers.{leaves, named};
ghost use Rattle.connection.specs.Faults.{keeps, code_in};
ghost use Rattle.connection.specs.Turned.{fresh_connection, numbered, stays, first_record, taken_by, free_at, opens_at, Asks, replies, beside, Hears, overhears, Turned, started_of, swept_of, GoesAway};
ghost use Rattle.connection.specs.Nearly.{Nearly};
ghost use Rattle.connection.specs.Briefly.{Briefly};

use doors::Doors;
use oneway::calls::{Heard, Side};
use record::Record;
use requests::Reply;
use rules::codes::House;
use wire::ids::StreamId;

// A call on one stream: an opening, or a call on a stream that was opened.
#[derive(Clone, Copy)]
pub enum Call {
    Open,
    On(Own),
}

// Give: a section is given to it.
#[derive(Clone, Copy)]
pub enum Own {
    Feed,
    Give,
    End,
    Reset,
}

// A call as a host asks it: of which stream, how many frame headers may be read, and the bytes that come with it.
#[derive(Clone, Copy)]
pub struct Ask<'a> {
    pub call: Call,
    pub id: u64,
    pub allow: u64,
    pub piece: &'a [u8],
}

// How many records a host's row has.
pub const ROW: usize = 24;

// What a host lends for a connection: integers alone, and each value means something. doors: what every call looks at. side: what only a one-way
// stream's call does. A code, a flag or a count that no start of ours left has a meaning too (docs/DECISIONS.md, N14).
#[repr(C)]
#[derive(Clone, Copy)]
pub struct Connection {
    pub doors: Doors,
    pub side: Side,
}

// What a call answers. number 0: accepted. event 0: none, 1: content, 2: section bytes, 3: the last of them, 7: QPACK stream bytes,
// 8: settings, 9: a client's GOAWAY, 10: MAX_PUSH_ID, 11: the request is whole, 12: freed. A part is len bytes of the piece from start on.
// used and heads: bytes and frame headers of the piece. value: the QPACK stream's type, or the push ID.
#[repr(C)]
#[derive(Clone, Copy)]
pub struct Report {
    pub number: u64,
    pub event: u64,
    pub start: u64,
    pub len: u64,
    pub used: u64,
    pub heads: u64,
    pub value: u64,
}

impl From<Reply> for Report {
    ghost use Rattle.std.specs.Prelude.{◌≡◌};
    ghost use Rattle.connection.specs.Turned.{request_report};

    ghost from_gives = { λ a r. r ≡ request_report a };

    fn from(a: Reply) -> Report {
        Report {
            number: a.number,
            event: a.event,
            start: a.start as u64,
            len: a.len,
            used: a.used as u64,
            heads: a.heads,
            value: 0,
        }
    }
}

impl From<Heard> for Report {
    ghost use Rattle.std.specs.Prelude.{◌≡◌};
    ghost use Rattle.connection.specs.Turned.{one_way_report};

    ghost from_gives = { λ a r. r ≡ one_way_report a };

    fn from(a: Heard) -> Report {
        Report {
            number: a.number,
            event: a.event,
            start: a.start as u64,
            len: a.len,
            used: a.used as u64,
            heads: a.heads,
            value: a.value,
        }
    }
}

// What a search of the row found: how many records it has, where the wanted one is (that many, if it is nowhere), and the record.
// The place is no Option: FoundIn and Turned speak of this one, and past the end the record is a free one.
#[derive(Clone, Copy)]
pub struct Found {
    pub len: usize,
    pub at: usize,
    pub row: Record,
}

// What a call leaves of the doors and of the record, and what it answers, beside any side.
#[derive(Clone, Copy)]
pub struct Near {
    pub doors: Doors,
    pub row: Record,
    pub report: Report,
}

// What a call leaves of the connection and of the record, and what it answers.
#[derive(Clone, Copy)]
pub struct Turn {
    pub conn: Connection,
    pub row: Record,
    pub report: Report,
}

// number 0: accepted, and count bytes are written.
#[repr(C)]
#[derive(Clone, Copy)]
pub struct Written {
    pub number: u64,
    pub count: u64,
}

impl From<Result<usize, u64>> for Written {
    ghost use Rattle.std.specs.Prelude.{◌≡◌};
    ghost use Rattle.connection.specs.Turned.{written_of};

    ghost from_gives = { λ a w. w ≡ written_of a };

    fn from(answer: Result<usize, u64>) -> Written {
        match answer {
            Ok(count) => Written {
                number: rules::ACCEPTED,
                count: count as u64,
            },
            Err(number) => Written { number, count: 0 },
        }
    }
}

// What our GOAWAY leaves of the doors, and what it answers.
#[derive(Clone, Copy)]
pub struct Gone {
    pub doors: Doors,
    pub written: Written,
}

pub fn fresh() -> Connection
    ensures { result ≡ fresh_connection }
{
    Connection {
        doors: doors::fresh(),
        side: oneway::calls::fresh(),
    }
}

// ---- answers

fn numbered_report(number: u64) -> Report
    ensures { result ≡ numbered number }
{
    Report {
        number,
        event: rules::NOTHING,
        start: 0,
        len: 0,
        used: 0,
        heads: 0,
        value: 0,
    }
}

fn refused(number: u64, d: Doors, f: Found) -> Near
    ensures { result ≡ stays number d f }
{
    Near {
        doors: d,
        row: f.row,
        report: numbered_report(number),
    }
}

// Whether document 01's last table has a number's code kept.
fn keeps_code(number: u64) -> bool
    ensures { result ≡ keeps (leaves (named number)) }
{
    match number {
        rules::STREAM_CREATION_ERROR
        | rules::CLOSED_CRITICAL_STREAM
        | rules::FRAME_UNEXPECTED
        | rules::FRAME_ERROR
        | rules::EXCESSIVE_LOAD
        | rules::ID_ERROR
        | rules::SETTINGS_ERROR
        | rules::MISSING_SETTINGS => true,
        _ => false,
    }
}

// A connection fault: the code is kept.
fn code_kept(d: Doors, number: u64) -> Doors
    ensures { result ≡ code_in d number }
{
    if keeps_code(number) {
        Doors { code: number, ..d }
    } else {
        d
    }
}

// ---- the row

// The record that a call is about: of an opening a free one, of a call on a stream the stream's own.
pub fn wanted(call: Call, id: u64, r: Record) -> bool
    ensures { Decides (Wanted call id r) result }
{
    match call {
        Call::Open => record::is_free(r),
        Call::On(_) => r.id == id && r.kind != record::FREE_KIND,
    }
}

// ---- an opening

// Nothing was read yet.
fn begun_row(kind: u8, id: u64) -> Record
    ensures { result ≡ record_at kind id no_cells }
{
    Record {
        id,
        kind,
        ..record::free()
    }
}

// The record that a stream begins with.
fn first_record(id: StreamId) -> Record
    ensures { result ≡ first_record id.0 }
{
    if wire::ids::is_request(id) {
        begun_row(record::REQUEST_KIND, id.0)
    } else {
        begun_row(record::UNTYPED as u8, id.0)
    }
}

// An opening that is accepted takes the record.
fn taken_by(number: u64, id: StreamId, r: Record) -> Record
    ensures { result ≡ taken_by number id.0 r }
{
    if number == rules::ACCEPTED {
        first_record(id)
    } else {
        r
    }
}

// How many free records a search for one has found.
fn free_at(at: usize) -> u64
    ensures { result ≡ free_at at }
{
    u64::from(at < ROW)
}

fn open_stream(d: Doors, f: Found, id: StreamId) -> Near
    ensures { result ≡ opens_at d f id.0 }
{
    let opening = doors::open(d, id, free_at(f.at));
    Near {
        doors: opening.doors,
        row: taken_by(opening.number, id, f.row),
        report: numbered_report(opening.number),
    }
}

// ---- a call on an open stream

// What a request answers, and what that makes of doors and record: a connection fault's code is kept.
fn answer_request(r: Record, own: Own, ask: Ask) -> Reply
    ensures { Asks r own ask.entry.allow ask.entry.piece.now result }
{
    match own {
        Own::Feed => requests::feed(r, ask.piece, ask.allow),
        Own::Give => requests::give(r, ask.piece),
        Own::End => requests::end(r),
        Own::Reset => requests::reset(r),
    }
}

fn reply_turn(d: Doors, a: Reply) -> Near
    ensures { result ≡ replies d a }
{
    Near {
        doors: code_kept(d, a.number),
        row: a.row,
        report: Report::from(a),
    }
}

// What a one-way stream answers, and what that makes of both: it alters its side of the connection too.
fn answer_one_way(r: Record, side: Side, own: Own, ask: Ask) -> Heard
    ensures { Hears r side own ask.entry.allow ask.entry.piece.now result }
{
    match own {
        Own::Feed => oneway::calls::feed(r, side, ask.piece, ask.allow),
        Own::Give => oneway::calls::give(r, side),
        Own::End | Own::Reset => oneway::calls::close(r, side),
    }
}

fn heard_turn(d: Doors, a: Heard) -> Turn
    ensures { result ≡ overhears d a }
{
    Turn {
        conn: Connection {
            doors: code_kept(d, a.number),
            side: a.side,
        },
        row: a.row,
        report: Report::from(a),
    }
}

// A call on one stream, as far as the doors decide it: none, if the side is asked.
#[inline(always)]
pub fn answer(d: Doors, f: Found, ask: Ask) -> Option<Near>
    ensures { Nearly d f ask.entry.call ask.entry.id ask.entry.allow ask.entry.piece.now result }
{
    if f.len != ROW {
        return Some(refused(rules::OTHER_ROW, d, f));
    }
    if d.code != 0 {
        return Some(refused(d.code, d, f));
    }
    match ask.call {
        Call::Open => Some(open_stream(d, f, StreamId(ask.id))),
        Call::On(_) if ROW <= f.at => Some(refused(rules::NOT_OPEN, d, f)),
        // 1 to a record that is not an open stream's, here and aside.
        Call::On(own) if f.row.kind == record::REQUEST_KIND => Some(reply_turn(
            d,
            answer_request(f.row, own, ask),
        )),
        Call::On(_) => None,
    }
}

// The side stays as it is.
fn near_turn(side: Side, n: Near) -> Turn
    ensures { result ≡ beside side n }
{
    Turn {
        conn: Connection {
            doors: n.doors,
            side,
        },
        row: n.row,
        report: n.report,
    }
}

// A call on one stream.
pub fn decide(c: Connection, f: Found, ask: Ask) -> Turn
    ensures { Turned c f ask.entry.call ask.entry.id ask.entry.allow ask.entry.piece.now result }
{
    match (answer(c.doors, f, ask), ask.call) {
        (Some(near), _) => near_turn(c.side, near),
        (None, Call::On(own)) => heard_turn(c.doors, answer_one_way(f.row, c.side, own, ask)),
        (None, Call::Open) => unreachable!(),
    }
}

// What a feed leaves of the record and answers, where it leaves the connection as it is.
#[derive(Clone, Copy)]
pub struct Brief {
    pub row: Record,
    pub report: Report,
}

// A feed, if it is content of a request: accepted, and the connection stays as it is.
pub fn brisk(code: u64, f: Found, allow: u64, piece: &[u8]) -> Option<Brief>
    ensures { Briefly code f allow piece.now result }
{
    if f.len == ROW && code == 0 && f.at < ROW && f.row.kind == record::REQUEST_KIND {
        let a = requests::brisk(f.row, piece, allow)?;
        return Some(Brief {
            row: a.row,
            report: Report::from(a),
        });
    }
    None
}

// ---- start

// Start, lent a row of this length: a refusal leaves the connection as it was.
pub fn begin(len: usize) -> Result<Connection, House>
    ensures { result ≡ started_of len }
{
    if len == ROW {
        Ok(fresh())
    } else {
        Err(House::OtherRow)
    }
}

// What start leaves of a record in a row of this length.
pub fn swept(len: usize, r: Record) -> Record
    ensures { result ≡ swept_of len r }
{
    if len == ROW { record::free() } else { r }
}

// ---- our GOAWAY

// We send a GOAWAY of this ID into the room.
pub fn say_goaway(d: Doors, id: u64, room: &mut [u8]) -> Gone
    ensures { GoesAway d id room.old result room.new }
{
    match doors::send_goaway(d, StreamId(id), room) {
        Ok((count, after)) => Gone {
            doors: after,
            written: Written::from(Ok(count)),
        },
        Err(number) => Gone {
            doors: d,
            written: Written::from(Err(number)),
        },
    }
}
