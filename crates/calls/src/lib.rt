// Every call, lent the connection's record and the host's row of stream records (document 01, "Calls and the host's memory").
// One record is found, stepped by value and stored back; the others are not touched.
#![tactic(auto)]

ghost use Rattle.std.specs.Prelude.{◌≡◌, map, length, set};
ghost use Rattle.connection.specs.Turned.{turn, Turned, swept_of};
ghost use Rattle.calls.specs.Layout.{connection_size, record_size, report_size, written_size};
ghost use Rattle.calls.specs.Lent.{FirstIn, found_at};
ghost use Rattle.varint.specs.Write.{answer_of};
ghost use Rattle.calls.specs.Promises.{Started, Stepped, Opened, Fed, Given, Ended, Reset, SaidGoaway, written_of, WroteHeader, WroteIntegerFrame, WroteOpening};

use connection::{Ask, Brief, Call, Connection, Found, Own, Report, Written};
use record::Record;
use rules::codes::House;

// ---- the row

// Where the first record is that a call is about, and the length if there is none: FirstIn says so, and the doors ask how far the search came.
fn find(row: &[Record], call: Call, id: u64) -> usize
    ensures { FirstIn call id row.now result }
{
    row.iter()
        .position(|r| connection::wanted(call, id, *r))
        .unwrap_or(row.len())
}

// What is at a place of the row: past the end a free record.
fn found_at(row: &[Record], at: usize) -> Found
    ensures { result ≡ found_at row.now at }
{
    Found {
        len: row.len(),
        at,
        row: row.get(at).copied().unwrap_or(record::free()),
    }
}

// Nothing is stored past the end.
fn store(row: &mut [Record], i: usize, r: Record)
    ensures { row.new ≡ set row.old i r }
{
    // No get_mut: std says nothing of what it leaves of the slice.
    if i < row.len() {
        row[i] = r;
    }
}

// Every record, as start leaves it.
fn empty(row: &mut [Record])
    ensures { row.new ≡ map (swept_of (length row.old)) row.old }
{
    let len = row.len();
    for r in row.iter_mut() {
        *r = connection::swept(len, *r);
    }
}

// ---- a call on one stream

// A call on the record that was found: what it leaves of the connection and of the record. The side is read and stored for a one-way stream alone.
fn settle(conn: &mut Connection, f: Found, ask: Ask) -> Brief
    ensures { Turned conn.old f ask.entry.call ask.entry.id ask.entry.allow ask.entry.piece.now (turn conn.new result.row result.report) }
{
    match connection::answer(conn.doors, f, ask) {
        Some(near) => {
            conn.doors = near.doors;
            Brief {
                row: near.row,
                report: near.report,
            }
        }
        None => {
            let turn = connection::decide(*conn, f, ask);
            *conn = turn.conn;
            Brief {
                row: turn.row,
                report: turn.report,
            }
        }
    }
}

// A call on what is at a place of the row, where the search of it stopped.
fn step_at(conn: &mut Connection, row: &mut [Record], at: usize, ask: Ask) -> Report
    ensures { FirstIn ask.entry.call ask.entry.id row.old at → Stepped conn.old row.old ask.entry.call ask.entry.id ask.entry.allow ask.entry.piece.now conn.new row.new result }
{
    let f = found_at(row, at);
    let b = settle(conn, f, ask);
    store(row, at, b.row);
    b.report
}

#[inline]
pub fn step(conn: &mut Connection, row: &mut [Record], ask: Ask) -> Report
    ensures { Stepped conn.old row.old ask.entry.call ask.entry.id ask.entry.allow ask.entry.piece.now conn.new row.new result }
{
    let at = find(row, ask.call, ask.id);
    step_at(conn, row, at, ask)
}

// ---- what a host calls

pub fn eistulko_start(conn: &mut Connection, row: &mut [Record]) -> u64
    ensures { Started conn.old row.old conn.new row.new result }
{
    empty(row);
    match connection::begin(row.len()) {
        Ok(begun) => {
            *conn = begun;
            rules::ACCEPTED
        }
        Err(house) => house.number(),
    }
}

pub fn eistulko_open(conn: &mut Connection, row: &mut [Record], id: u64) -> Report
    ensures { Opened conn.old row.old id conn.new row.new result }
{
    step(
        conn,
        row,
        Ask {
            call: Call::Open,
            id,
            allow: 0,
            piece: b"",
        },
    )
}

pub fn eistulko_feed(
    conn: &mut Connection,
    row: &mut [Record],
    id: u64,
    piece: &[u8],
    allow: u64,
) -> Report
    ensures { Fed conn.old row.old id piece.now allow conn.new row.new result }
{
    let ask = Ask {
        call: Call::On(Own::Feed),
        id,
        allow,
        piece,
    };
    // Speed (docs/PERFORMANCE.md): a row of a known length is searched without a loop, and content's report stays in registers beside the calls' one.
    let report = if row.len() == connection::ROW {
        let at = find(row, ask.call, id);
        let found = found_at(row, at);
        if let Some(content) = connection::brisk(conn.doors.code, found, allow, piece) {
            store(row, at, content.row);
            return content.report;
        }
        step_at(conn, row, at, ask)
    } else {
        step(conn, row, ask)
    };
    report
}

pub fn eistulko_give(conn: &mut Connection, row: &mut [Record], id: u64, block: &[u8]) -> Report
    ensures { Given conn.old row.old id block.now conn.new row.new result }
{
    step(
        conn,
        row,
        Ask {
            call: Call::On(Own::Give),
            id,
            allow: 0,
            piece: block,
        },
    )
}

pub fn eistulko_end(conn: &mut Connection, row: &mut [Record], id: u64) -> Report
    ensures { Ended conn.old row.old id conn.new row.new result }
{
    step(
        conn,
        row,
        Ask {
            call: Call::On(Own::End),
            id,
            allow: 0,
            piece: b"",
        },
    )
}

pub fn eistulko_reset(conn: &mut Connection, row: &mut [Record], id: u64) -> Report
    ensures { Reset conn.old row.old id conn.new row.new result }
{
    step(
        conn,
        row,
        Ask {
            call: Call::On(Own::Reset),
            id,
            allow: 0,
            piece: b"",
        },
    )
}

pub fn eistulko_goaway(conn: &mut Connection, id: u64, room: &mut [u8]) -> Written
    ensures { SaidGoaway conn.old id room.old conn.new room.new result }
{
    let gone = connection::say_goaway(conn.doors, id, room);
    // Of the doors it alters these two alone.
    conn.doors.goaways = gone.doors.goaways;
    conn.doors.goaway = gone.doors.goaway;
    gone.written
}

// ---- the other writes: lent the room alone, for they depend on no record

fn told(answer: Result<usize, House>) -> Written
    ensures { result ≡ written_of (answer_of answer) }
{
    Written::from(answer.map_err(House::number))
}

pub fn eistulko_write_header(ftype: u64, len: u64, room: &mut [u8]) -> Written
    ensures { WroteHeader ftype len room.old result room.new }
{
    told(wire::write_header(ftype, len, room))
}

pub fn eistulko_write_integer_frame(ftype: u64, value: u64, room: &mut [u8]) -> Written
    ensures { WroteIntegerFrame ftype value room.old result room.new }
{
    told(wire::write_integer_frame(ftype, value, room))
}

pub fn eistulko_write_opening(room: &mut [u8]) -> Written
    ensures { WroteOpening room.old result room.new }
{
    told(wire::write_opening(room))
}

// ---- how many bytes a host lends, to compare with its header

pub fn eistulko_connection_size() -> usize
    ensures { result ≡ connection_size }
{
    size_of::<Connection>()
}

pub fn eistulko_record_size() -> usize
    ensures { result ≡ record_size }
{
    size_of::<Record>()
}

pub fn eistulko_report_size() -> usize
    ensures { result ≡ report_size }
{
    size_of::<Report>()
}

pub fn eistulko_written_size() -> usize
    ensures { result ≡ written_size }
{
    size_of::<Written>()
}
