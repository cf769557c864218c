// What a host links: each call of `calls` under its name in C (include/eistulko.h), with the same promise and no logic of its own.
#![tactic(auto)]

ghost use Rattle.std.specs.Prelude.{◌≡◌};
ghost use Rattle.calls.specs.Layout.{connection_size, record_size, report_size, written_size};
ghost use Rattle.calls.specs.Promises.{Started, Opened, Fed, Given, Ended, Reset, SaidGoaway, WroteHeader, WroteIntegerFrame, WroteOpening};

use connection::{Connection, Report, Written};
use record::Record;

#[unsafe(no_mangle)]
pub extern "C" fn eistulko_start(conn: &mut Connection, row: &mut [Record]) -> u64
    ensures { Started conn.old row.old conn.new row.new result }
{
    calls::eistulko_start(conn, row)
}

#[unsafe(no_mangle)]
pub extern "C" fn eistulko_open(conn: &mut Connection, row: &mut [Record], id: u64) -> Report
    ensures { Opened conn.old row.old id conn.new row.new result }
{
    calls::eistulko_open(conn, row, id)
}

#[unsafe(no_mangle)]
pub extern "C" fn eistulko_feed(
    conn: &mut Connection,
    row: &mut [Record],
    id: u64,
    piece: &[u8],
    allow: u64,
) -> Report
    ensures { Fed conn.old row.old id piece.now allow conn.new row.new result }
{
    calls::eistulko_feed(conn, row, id, piece, allow)
}

#[unsafe(no_mangle)]
pub extern "C" fn eistulko_give(
    conn: &mut Connection,
    row: &mut [Record],
    id: u64,
    block: &[u8],
) -> Report
    ensures { Given conn.old row.old id block.now conn.new row.new result }
{
    calls::eistulko_give(conn, row, id, block)
}

#[unsafe(no_mangle)]
pub extern "C" fn eistulko_end(conn: &mut Connection, row: &mut [Record], id: u64) -> Report
    ensures { Ended conn.old row.old id conn.new row.new result }
{
    calls::eistulko_end(conn, row, id)
}

#[unsafe(no_mangle)]
pub extern "C" fn eistulko_reset(conn: &mut Connection, row: &mut [Record], id: u64) -> Report
    ensures { Reset conn.old row.old id conn.new row.new result }
{
    calls::eistulko_reset(conn, row, id)
}

#[unsafe(no_mangle)]
pub extern "C" fn eistulko_goaway(conn: &mut Connection, id: u64, room: &mut [u8]) -> Written
    ensures { SaidGoaway conn.old id room.old conn.new room.new result }
{
    calls::eistulko_goaway(conn, id, room)
}

#[unsafe(no_mangle)]
pub extern "C" fn eistulko_write_header(ftype: u64, len: u64, room: &mut [u8]) -> Written
    ensures { WroteHeader ftype len room.old result room.new }
{
    calls::eistulko_write_header(ftype, len, room)
}

#[unsafe(no_mangle)]
pub extern "C" fn eistulko_write_integer_frame(ftype: u64, value: u64, room: &mut [u8]) -> Written
    ensures { WroteIntegerFrame ftype value room.old result room.new }
{
    calls::eistulko_write_integer_frame(ftype, value, room)
}

#[unsafe(no_mangle)]
pub extern "C" fn eistulko_write_opening(room: &mut [u8]) -> Written
    ensures { WroteOpening room.old result room.new }
{
    calls::eistulko_write_opening(room)
}

#[unsafe(no_mangle)]
pub extern "C" fn eistulko_connection_size() -> usize
    ensures { result ≡ connection_size }
{
    calls::eistulko_connection_size()
}

#[unsafe(no_mangle)]
pub extern "C" fn eistulko_record_size() -> usize
    ensures { result ≡ record_size }
{
    calls::eistulko_record_size()
}

#[unsafe(no_mangle)]
pub extern "C" fn eistulko_report_size() -> usize
    ensures { result ≡ report_size }
{
    calls::eistulko_report_size()
}

#[unsafe(no_mangle)]
pub extern "C" fn eistulko_written_size() -> usize
    ensures { result ≡ written_size }
{
    calls::eistulko_written_size()
}
