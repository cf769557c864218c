// The lent calls over values, as covered code calls them: locals are lent, and taken back. Of the records, the first n are the row.
#![tactic(auto)]

ghost use Rattle.std.specs.Prelude.{◌≤◌, take};
ghost use Rattle.calls.specs.Lent.{Stepped, Started, SaidGoaway};
ghost use Rattle.faces.specs.Behind.{Behind};

use connection::{Ask, Connection, Report, Written};
use record::Record;

// What a call leaves of the connection's record and of the records, and what it answers.
#[derive(Clone, Copy)]
pub struct Driven {
    pub conn: Connection,
    pub rows: [Record; 32],
    pub report: Report,
}

pub fn drive(mut conn: Connection, mut rows: [Record; 32], n: usize, ask: Ask) -> Driven
    requires { n ≤ 32 }
    ensures { Stepped conn (take n rows) ask.entry.call ask.entry.id ask.entry.allow ask.entry.piece.now result.conn (take n result.rows) result.report × Behind n rows result.rows }
{
    let report = calls::step(&mut conn, &mut rows[..n], ask);
    Driven { conn, rows, report }
}

#[derive(Clone, Copy)]
pub struct Began {
    pub conn: Connection,
    pub rows: [Record; 32],
    pub number: u64,
}

pub fn drive_start(mut conn: Connection, mut rows: [Record; 32], n: usize) -> Began
    requires { n ≤ 32 }
    ensures { Started conn (take n rows) result.conn (take n result.rows) result.number × Behind n rows result.rows }
{
    let number = calls::eistulko_start(&mut conn, &mut rows[..n]);
    Began { conn, rows, number }
}

#[derive(Clone, Copy)]
pub struct Told {
    pub conn: Connection,
    pub written: Written,
}

pub fn drive_goaway(mut conn: Connection, id: u64, room: &mut [u8]) -> Told
    ensures { SaidGoaway conn id room.old result.conn room.new result.written }
{
    let written = calls::eistulko_goaway(&mut conn, id, room);
    Told { conn, written }
}
