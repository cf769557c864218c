// The lines of `replay`: a script's calls made one by one, and a line printed for each.
#![tactic(auto)]

ghost use Rattle.std.specs.Prelude.{◌≡◌, ◌+◌, ◌*◌, ◌<◌, ◌≤◌, [], ◌∷◌, ◌++◌, length, take, replicate, IfSome};
ghost use Rattle.rules.specs.Integers.{integer};
ghost use Rattle.varint.specs.Write.{Meets};
ghost use Rattle.listing.specs.Text.{decimal};
ghost use Rattle.script.specs.Words.{hex_digit, hex_word};
ghost use Rattle.replaying.specs.Lines.{blank, flagged, maybe_text, settings_text, head_text, event_text, report_line, start_line, written_line, value_line, kind_text, due_text, record_text, rows_text, conn_text, state_line, write_of, write_line, read_line};
ghost use Rattle.replaying.specs.Puts.{Adds};
ghost use Rattle.replaying.specs.Plays.{Prints, HasLine, Lends, Leaves, Starts, Steps, Says, Writes, Plays};
ghost use Rattle.replaying.specs.Runs.{StepAt};

use connection::doors::Doors;
use connection::{Ask, Call, Connection, Own, Report};
use control::Kept;
use listing::Text;
use record::Record;
use rules::codes::House;
use script::{Line, Verb, Writing};
use varint::Whole;

// A longer script is not played.
const LIMIT: usize = 1048576;

// How many records the row has that is kept from line to line, and how many may be lent at most.
const KEPT: usize = 24;

const MOST: usize = 32;

// The most bytes that a write is lent, and their digits.
const BUFFER: usize = 64;

const DIGITS: usize = 2 * BUFFER;

// ---- parts of a printed line, put behind what the text has

fn number(text: &mut Text, n: u64)
    requires { text.old.length + 20 ≤ 2048 }
    ensures { Adds text.old (decimal n) 20 text.new }
{
    text.put_decimal(n);
}

// A blank, and a number.
fn spaced(text: &mut Text, n: u64)
    requires { text.old.length + 21 ≤ 2048 }
    ensures { Adds text.old (blank n) 21 text.new }
{
    text.put(b" ");
    number(text, n);
}

// The records of the C interface have a flag beside a value.
fn given(there: u64, value: u64) -> Option<u64>
    ensures { result ≡ flagged there value }
{
    if there == 0 { None } else { Some(value) }
}

// A blank, and a number or `-`.
fn maybe(text: &mut Text, value: Option<u64>)
    requires { text.old.length + 21 ≤ 2048 }
    ensures { Adds text.old (maybe_text value) 21 text.new }
{
    match value {
        Some(n) => spaced(text, n),
        None => text.put(b" -"),
    }
}

// The settings that a connection record keeps.
fn settings(text: &mut Text, kept: Kept)
    requires { text.old.length + 63 ≤ 2048 }
    ensures { Adds text.old (settings_text kept) 63 text.new }
{
    if kept.set == 0 {
        text.put(b" - 0 0");
        return;
    }
    maybe(text, given(kept.limited, kept.size));
    spaced(text, kept.capacity);
    spaced(text, kept.blocked);
}

// A hexadecimal digit.
fn hex(n: u8) -> u8
    requires { n < 16 }
    ensures { result ≡ hex_digit n }
{
    if n < 10 { b'0' + n } else { b'a' + (n - 10) }
}

// Bytes, in two digits each; `-` for none.
fn spelt(text: &mut Text, bytes: &[u8])
    requires { (length bytes.now ≤ 64) × (text.old.length + 128 ≤ 2048) }
    ensures { Adds text.old (hex_word bytes.now) 128 text.new }
{
    if bytes.is_empty() {
        text.put(b"-");
        return;
    }
    // put at once: a put for each byte would load and store the length each time
    let mut digits = [0; DIGITS];
    for (i, &b) in bytes.iter().enumerate() {
        digits[2 * i] = hex(b / 16);
        digits[2 * i + 1] = hex(b % 16);
    }
    text.put(&digits[..2 * bytes.len()]);
}

// ---- the line of a call

// The number, the bytes consumed, the headers finished.
fn head(text: &mut Text, code: u64, used: u64, heads: u64)
    requires { text.old.length + 63 ≤ 2048 }
    ensures { Adds text.old (head_text code used heads) 63 text.new }
{
    number(text, code);
    spaced(text, used);
    spaced(text, heads);
    text.put(b" ");
}

// A word, and two numbers.
fn part(text: &mut Text, word: &[u8], a: u64, b: u64)
    requires { (length word.now ≤ 8) × (text.old.length + 50 ≤ 2048) }
    ensures { Adds text.old (word.now ++ blank a ++ blank b) 50 text.new }
{
    text.put(word);
    spaced(text, a);
    spaced(text, b);
}

// What a call on a stream gave.
fn event(text: &mut Text, kept: Kept, r: Report)
    requires { text.old.length + 75 ≤ 2048 }
    ensures { Adds text.old (event_text kept r) 75 text.new }
{
    match r.event {
        rules::CONTENT => part(text, b"content", r.start, r.len),
        rules::SECTION => {
            part(text, b"section", r.start, r.len);
            text.put(b" 0");
        }
        rules::SECTION_END => {
            part(text, b"section", r.start, r.len);
            text.put(b" 1");
        }
        rules::QPACK => {
            part(text, b"qpack", r.value, r.start);
            spaced(text, r.len);
        }
        rules::SETTINGS => {
            text.put(b"settings");
            settings(text, kept);
        }
        rules::GOAWAY => {
            text.put(b"goaway");
            spaced(text, r.value);
        }
        rules::MAX_PUSH_ID => {
            text.put(b"maxpush");
            spaced(text, r.value);
        }
        rules::WHOLE => text.put(b"whole"),
        rules::FREED => text.put(b"freed"),
        _ => text.put(b"-"),
    }
}

fn report_line(text: &mut Text, c: Connection, r: Report)
    requires { HasLine text.old }
    ensures { Adds text.old (report_line c r) 139 text.new }
{
    head(text, r.number, r.used, r.heads);
    event(text, c.side.kept, r);
    text.put(b"\n");
}

fn start_line(text: &mut Text, code: u64)
    requires { HasLine text.old }
    ensures { Adds text.old (start_line code) 65 text.new }
{
    head(text, code, 0, 0);
    text.put(b"-\n");
}

fn written_line(text: &mut Text, code: u64, count: u64, buffer: &[u8])
    requires { HasLine text.old × (length buffer.now ≤ 64) }
    ensures { Adds text.old (written_line code count buffer.now) 221 text.new }
{
    head(text, code, 0, 0);
    text.put(b"written");
    spaced(text, count);
    text.put(b" ");
    spelt(text, buffer);
    text.put(b"\n");
}

fn value_line(text: &mut Text, value: u64, size: u64)
    requires { HasLine text.old }
    ensures { Adds text.old (value_line value size) 54 text.new }
{
    text.put(b"0 0 0 value");
    spaced(text, value);
    spaced(text, size);
    text.put(b"\n");
}

// ---- the line of the state

fn kind(text: &mut Text, kind: u8)
    requires { text.old.length + 7 ≤ 2048 }
    ensures { Adds text.old (kind_text kind) 7 text.new }
{
    match u64::from(kind) {
        record::REQUEST => text.put(b"request"),
        record::UNTYPED => text.put(b"untyped"),
        record::CONTROL => text.put(b"control"),
        record::ENCODER => text.put(b"encoder"),
        record::DECODER => text.put(b"decoder"),
        _ => text.put(b"skipped"),
    }
}

// Whether a section is due of a request.
fn due(text: &mut Text, r: Record)
    requires { text.old.length + 1 ≤ 2048 }
    ensures { Adds text.old (due_text r) 1 text.new }
{
    if r.kind == record::REQUEST_KIND {
        match r.mode {
            record::HEADER_DUE_MODE | record::TRAILERS_DUE_MODE => text.put(b"+"),
            _ => {}
        }
    }
}

fn shown(text: &mut Text, index: u64, r: Record)
    requires { text.old.length + 51 ≤ 2048 }
    ensures { Adds text.old (record_text index r) 51 text.new }
{
    if r.kind == record::FREE_KIND {
        return;
    }
    spaced(text, index);
    text.put(b":");
    number(text, r.id);
    text.put(b":");
    kind(text, r.kind);
    due(text, r);
}

fn records(text: &mut Text, rows: [Record; MOST])
    requires { text.old.length + 1224 ≤ 2048 }
    ensures { Adds text.old (rows_text 0 (take 24 rows)) 1224 text.new }
{
    for (i, &r) in rows[..KEPT].iter().enumerate() {
        shown(text, i as u64, r);
    }
}

fn conn_text(text: &mut Text, doors: Doors, kept: Kept)
    requires { HasLine text.old }
    ensures { Adds text.old (conn_text doors kept) 200 text.new }
{
    text.put(b"0 0 0 state");
    spaced(text, doors.code);
    spaced(text, doors.requests);
    spaced(text, doors.oneways);
    maybe(text, given(doors.goaways, doors.goaway.0));
    maybe(text, given(kept.goaways, kept.goaway.0));
    maybe(text, given(kept.pushes, kept.push.0));
    settings(text, kept);
}

// The connection, and each record of the row's 24 that is not free.
fn state_line(text: &mut Text, c: Connection, rows: [Record; MOST])
    requires { HasLine text.old }
    ensures { Adds text.old (state_line c (take 24 rows)) 1425 text.new }
{
    conn_text(text, c.doors, c.side.kept);
    records(text, rows);
    text.put(b"\n");
}

// ---- calls

// A connection record and a row that had the same start: the first 24 of the records.
#[derive(Clone, Copy)]
pub struct Pair {
    pub conn: Connection,
    pub rows: [Record; MOST],
}

impl Pair {
    // The row that a line's call is lent: the kept one, or another of n free records.
    fn lent(self, n: u64) -> [Record; MOST]
        ensures { Lends self n result }
    {
        if n == KEPT as u64 {
            self.rows
        } else {
            [record::free(); MOST]
        }
    }

    // What the call leaves: of the row only if it was the kept one.
    fn left(self, n: u64, conn: Connection, rows: [Record; MOST]) -> Pair
        ensures { Leaves self n conn rows result }
    {
        if n == KEPT as u64 {
            Pair { conn, rows }
        } else {
            Pair { conn, ..self }
        }
    }
}

fn started(text: &mut Text, pair: Pair, n: u64) -> Pair
    requires { HasLine text.old × (n ≤ 32) }
    ensures { Prints (Starts pair n result) text.old text.new }
{
    let b = faces::drive_start(pair.conn, pair.lent(n), n as usize);
    start_line(text, b.number);
    pair.left(n, b.conn, b.rows)
}

// A call on one stream.
fn streamed(text: &mut Text, pair: Pair, n: u64, ask: Ask) -> Pair
    requires { HasLine text.old × (n ≤ 32) }
    ensures { Prints (Steps pair n ask.entry.call ask.entry.id ask.entry.allow ask.entry.piece.now result) text.old text.new }
{
    let d = faces::drive(pair.conn, pair.lent(n), n as usize, ask);
    report_line(text, d.conn, d.report);
    pair.left(n, d.conn, d.rows)
}

// Our GOAWAY, into a buffer.
fn told_goaway(text: &mut Text, pair: Pair, id: u64, buffer: &mut [u8]) -> Pair
    requires { HasLine text.old × (length buffer.old ≤ 64) }
    ensures { Prints (Says pair id buffer.old result) text.old text.new }
{
    let gone = faces::drive_goaway(pair.conn, id, buffer);
    written_line(text, gone.written.number, gone.written.count, buffer);
    Pair {
        conn: gone.conn,
        ..pair
    }
}

// The other writes.
fn wrote(writing: Writing, a: u64, b: u64, buffer: &mut [u8]) -> Result<usize, House>
    ensures { Meets (write_of writing a b (length buffer.old)) buffer.old result buffer.new }
{
    match writing {
        Writing::Header => wire::write_header(a, b, buffer),
        Writing::IntegerFrame => wire::write_integer_frame(a, b, buffer),
        Writing::Integer => varint::write(a, buffer),
        Writing::Opening => wire::write_opening(buffer),
    }
}

fn written(text: &mut Text, writing: Writing, a: u64, b: u64, buffer: &mut [u8])
    requires { HasLine text.old × (length buffer.old ≤ 64) }
    ensures { Adds text.old (write_line (write_of writing a b (length buffer.old)) buffer.old) 221 text.new }
{
    match wrote(writing, a, b, buffer) {
        Err(refusal) => written_line(text, refusal.number(), 0, buffer),
        Ok(count) => written_line(text, 0, count as u64, buffer),
    }
}

// A buffer, filled so that it can be seen untouched.
fn filled() -> [u8; BUFFER]
    ensures { result ≡ replicate 64 170 }
{
    [170; BUFFER]
}

// A GOAWAY, and a write, into a buffer of the line's size.
fn goaway(text: &mut Text, pair: Pair, l: Line) -> Pair
    requires { HasLine text.old × (l.room ≤ 64) × (l.verb ≡ Verb.Goaway) }
    ensures { Prints (Writes pair l result) text.old text.new }
{
    let mut buffer = filled();
    told_goaway(text, pair, l.a, &mut buffer[..l.room])
}

fn buffered(text: &mut Text, pair: Pair, l: Line, writing: Writing)
    requires { HasLine text.old × (l.room ≤ 64) × (l.verb ≡ Verb.Write writing) }
    ensures { Prints (Writes pair l pair) text.old text.new }
{
    let mut buffer = filled();
    written(text, writing, l.a, l.b, &mut buffer[..l.room]);
}

fn value(text: &mut Text, bytes: &[u8])
    requires { HasLine text.old }
    ensures { Adds text.old (read_line (integer 0 bytes.now)) 54 text.new }
{
    match varint::read(bytes, 0) {
        None => text.put(b"0 0 0 cut\n"),
        Some(Whole { value: v, next }) => value_line(text, v, next as u64),
    }
}

// The call of a line, and what the pair is behind it.
fn play(text: &mut Text, pair: Pair, l: Line, piece: &[u8]) -> Pair
    requires { HasLine text.old × IfSome l.row (λ n. n ≤ 32) × (l.room ≤ 64) }
    ensures { Prints (Plays pair l piece.now result) text.old text.new }
{
    // the number of the kept row, as `Plays` (specs) has it: a script lends no other of 24
    let row = l.row.unwrap_or(KEPT as u64);
    let ask = Ask {
        call: Call::Open,
        id: l.a,
        allow: l.b,
        piece,
    };
    match l.verb {
        Verb::Start => started(text, pair, row),
        Verb::Open => streamed(text, pair, row, ask),
        Verb::Feed => streamed(
            text,
            pair,
            row,
            Ask {
                call: Call::On(Own::Feed),
                ..ask
            },
        ),
        Verb::Give => streamed(
            text,
            pair,
            row,
            Ask {
                call: Call::On(Own::Give),
                ..ask
            },
        ),
        Verb::End => streamed(
            text,
            pair,
            row,
            Ask {
                call: Call::On(Own::End),
                ..ask
            },
        ),
        Verb::Reset => streamed(
            text,
            pair,
            row,
            Ask {
                call: Call::On(Own::Reset),
                ..ask
            },
        ),
        Verb::Value => {
            value(text, piece);
            pair
        }
        Verb::State => {
            state_line(text, pair.conn, pair.rows);
            pair
        }
        Verb::Goaway => goaway(text, pair, l),
        Verb::Write(writing) => {
            buffered(text, pair, l, writing);
            pair
        }
    }
}

// ---- the run

// Where a run goes on: with the pair, at a place of the script.
#[derive(Clone, Copy)]
pub struct Step {
    pub pair: Pair,
    pub at: usize,
}

// A started pair, at the start of the script.
pub fn start() -> Step {
    let b = faces::drive_start(connection::fresh(), [record::free(); MOST], KEPT);
    // a variable: straight from one field into another, an array gets no proof
    let rows = b.rows;
    let pair = Pair { conn: b.conn, rows };
    Step { pair, at: 0 }
}

// The line at a place of the script: its call is made, and what it prints takes the text's place. The last line leads nowhere.
pub fn next(script: &[u8], step: Step, scratch: &mut [u8], text: &mut Text) -> Option<Step>
    ensures { StepAt script.now step scratch.old text.old.room result scratch.new text.new }
{
    text.clear();
    if LIMIT < script.len() {
        text.put(b"too long\n");
        return None;
    }
    if script.len() <= step.at {
        return None;
    }
    let Some(l) = script::line_at(script, step.at, scratch) else {
        text.put(b"bad line\n");
        return None;
    };
    Some(Step {
        pair: play(text, step.pair, l, &scratch[..l.count]),
        at: l.next,
    })
}
