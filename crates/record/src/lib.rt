// A stream as a record of a host's row: integers alone, in one place and order for every host, and one record for each state.
#![tactic(auto)]

ghost use Rattle.std.specs.Prelude.{◌≡◌, true, ◌<◌, ◌≤◌, ◌^◌};
ghost use Rattle.varint.specs.ByByte.{part, prog, part_of, Good};
ghost use Rattle.frames.specs.Answers.{Sane};
ghost use Rattle.frames.specs.Modes.{IN-CONTENT, SET};
ghost use Rattle.record.specs.Kinds.{REQUEST, UNTYPED, CONTROL, SKIPPED};
ghost use Rattle.record.specs.Row.{record_at, no_cells, free_record};
ghost use Rattle.record.specs.Sound.{Decides, Shaped, Fit, cells_in, tidied, Sound, Read, Written};
ghost use Rattle.record.specs.Body.{Body, content_in};
ghost use Rattle.record.specs.Tidy.{head_as, head_tidied, place_as, place_tidied};

use frames::Cells;

// Kinds. A one-way stream is untyped before its type is whole. Numbers, since the record and `oneway::OneWay`, which C sees, have them so.
pub const FREE: u64 = 0;

pub const REQUEST: u64 = 1;

pub const UNTYPED: u64 = 2;

pub const CONTROL: u64 = 3;

pub const ENCODER: u64 = 4;

pub const DECODER: u64 = 5;

pub const SKIPPED: u64 = 6;

// No ID and no integer of a stream reaches it; a length or a sum may.
const LIMIT: u64 = 1 << 62;

// The same numbers as bytes of a record.
pub const FREE_KIND: u8 = FREE as u8;

pub const REQUEST_KIND: u8 = REQUEST as u8;

pub const TYPE_MODE: u8 = frames::IN_TYPE as u8;

pub const CONTENT_MODE: u8 = frames::IN_CONTENT as u8;

pub const HEADER_DUE_MODE: u8 = frames::HEADER_SECTION_DUE as u8;

pub const TRAILERS_DUE_MODE: u8 = frames::TRAILERS_DUE as u8;

pub const BODY_PHASE: u8 = frames::BODY as u8;

// mode, due, phase and has are as in frames::Cells. owner and room are 0.
#[repr(C)]
#[derive(Clone, Copy, Default, PartialEq, Eq)]
pub struct Record {
    pub id: u64,
    pub acc: u64,
    pub ftype: u64,
    pub stated: u64,
    pub sum: u64,
    pub kind: u8,
    pub mode: u8,
    pub due: u8,
    pub phase: u8,
    pub has: u8,
    pub owner: u8,
    pub room: u16,
}

// An open stream; its kind a number, since Shaped, Fit and Written compare it.
#[derive(Clone, Copy)]
pub struct Stream {
    pub kind: u64,
    pub id: u64,
    pub cells: Cells,
}

// What a record says.
#[derive(Clone, Copy)]
pub enum Reading {
    Free,
    Open(Stream),
    Unsound,
}

// ---- numbers as they are

// The numbers of a record, whatever they are.
pub fn cells_in(r: Record) -> Cells
    ensures { result ≡ cells_in r }
{
    Cells {
        mode: u64::from(r.mode),
        acc: r.acc,
        due: u64::from(r.due),
        ftype: r.ftype,
        phase: u64::from(r.phase),
        has: u64::from(r.has),
        stated: r.stated,
        sum: r.sum,
    }
}

fn record_at(kind: u64, id: u64, c: Cells) -> Record
    requires { (kind < 256) × (c.mode < 256) × (c.due < 256) × (c.phase < 256) × (c.has < 256) }
    ensures { result ≡ record_at kind id c }
{
    Record {
        id,
        acc: c.acc,
        ftype: c.ftype,
        stated: c.stated,
        sum: c.sum,
        kind: kind as u8,
        mode: c.mode as u8,
        due: c.due as u8,
        phase: c.phase as u8,
        has: c.has as u8,
        ..Record::default()
    }
}

pub fn free() -> Record
    ensures { result ≡ free_record }
{
    Record::default()
}

// ---- tests

pub fn is_free(r: Record) -> bool
    ensures { Decides (r ≡ free_record) result }
{
    r == free()
}

// Part of an integer.
pub fn is_part(acc: u64, due: u64) -> bool
    ensures { Decides (Good (part acc due)) result }
{
    due <= 7 && acc < LIMIT >> (8 * due)
}

// Whether `frames` can go on from these cells.
pub fn is_sane(c: Cells) -> bool
    ensures { Decides (Sane c) result }
{
    c.mode <= frames::IN_CANCEL_PUSH
        && c.acc < LIMIT
        && c.ftype < LIMIT
        && c.sum <= LIMIT
        && c.stated <= LIMIT
        && if c.mode < frames::IN_SKIPPED {
            is_part(c.acc, c.due)
        } else {
            c.mode == frames::HEADER_SECTION_DUE || c.mode == frames::TRAILERS_DUE || c.acc != 0
        }
}

fn request_shaped(id: u64, c: Cells) -> bool
    requires { id < 2 ^ 62 }
    ensures { Decides (Shaped REQUEST id c) result }
{
    id % 4 == 0 && c.phase <= frames::TRAILED && c.mode <= frames::TRAILERS_DUE
}

fn control_shaped(id: u64, c: Cells) -> bool
    requires { id < 2 ^ 62 }
    ensures { Decides (Shaped CONTROL id c) result }
{
    id % 4 == 2
        && frames::UNSET <= c.phase
        && c.phase <= frames::SET
        && (c.mode < frames::IN_CONTENT || frames::IN_SETTINGS <= c.mode)
}

// A one-way stream that is no control stream, or not yet.
fn bare_shaped(kind: u64, id: u64, c: Cells) -> bool
    requires { (id < 2 ^ 62) × (UNTYPED ≤ kind) × (kind ≤ SKIPPED) × (kind ≡ CONTROL → ⊥) }
    ensures { Decides (Shaped kind id c) result }
{
    id % 4 == 2
        && c.phase == frames::OPENING
        && c.mode == frames::IN_TYPE
        && (kind == UNTYPED || c.due == 0)
}

fn shaped(kind: u64, id: u64, c: Cells) -> bool
    ensures { Decides (Shaped kind id c) result }
{
    if LIMIT <= id {
        return false;
    }
    match kind {
        REQUEST => request_shaped(id, c),
        CONTROL => control_shaped(id, c),
        UNTYPED..=SKIPPED => bare_shaped(kind, id, c),
        _ => false,
    }
}

fn fits(kind: u64, id: u64, c: Cells) -> bool
    ensures { Decides (Fit kind id c) result }
{
    is_sane(c) && shaped(kind, id, c)
}

// ---- the one among the cells of a state

// Apart from `placed`, the half beside it: each says which cells it alters.
fn headed(c: Cells, acc: u64, due: u64, ftype: u64) -> Cells
    ensures { result ≡ head_as c acc due ftype }
{
    Cells {
        acc,
        due,
        ftype,
        ..c
    }
}

fn placed(c: Cells, has: u64, stated: u64, sum: u64) -> Cells
    ensures { result ≡ place_as c has stated sum }
{
    Cells {
        has,
        stated,
        sum,
        ..c
    }
}

// The value so far of an integer of which nothing was read is 0.
fn value_so_far(acc: u64, due: u64) -> u64
    ensures { result ≡ (part_of (prog due acc)).acc }
{
    if due == 0 { 0 } else { acc }
}

// In a header or payload.
fn tidy_head(c: Cells) -> Cells
    requires { Sane c }
    ensures { result ≡ head_tidied c }
{
    match c.mode {
        frames::IN_TYPE => headed(c, value_so_far(c.acc, c.due), c.due, 0),
        frames::IN_LENGTH => headed(c, value_so_far(c.acc, c.due), c.due, c.ftype),
        frames::HEADER_SECTION_DUE | frames::TRAILERS_DUE => headed(c, 0, 0, 0),
        _ => headed(c, c.acc, 0, 0),
    }
}

// Between two frames.
fn tidy_place(c: Cells) -> Cells
    requires { c.phase ≤ SET }
    ensures { result ≡ place_tidied c }
{
    match c.phase {
        frames::BODY | frames::TRAILED => {
            if c.has == 0 {
                placed(c, 0, 0, c.sum)
            } else {
                placed(c, 1, c.stated, c.sum)
            }
        }
        _ => placed(c, 0, 0, 0),
    }
}

fn tidy(c: Cells) -> Cells
    requires { Sane c × (c.phase ≤ SET) }
    ensures { result ≡ tidied c }
{
    tidy_place(tidy_head(c))
}

// ---- a record as a state, and back

// What any record says: free, open, or unsound.
pub fn read(r: Record) -> Reading
    ensures { Read r result }
{
    if is_free(r) {
        return Reading::Free;
    }
    let kind = u64::from(r.kind);
    let cells = cells_in(r);
    if fits(kind, r.id, cells) && r == record_at(kind, r.id, tidy(cells)) {
        Reading::Open(Stream {
            kind,
            id: r.id,
            cells,
        })
    } else {
        Reading::Unsound
    }
}

// Whether a record's numbers are a request's behind its header section; but for mode and acc.
// Not one expression, here and in in_body: an exported feed of content is 12 instructions of some 100 shorter so.
fn behind(r: Record) -> bool
    ensures { result ≡ true → Body r }
{
    match r {
        Record {
            kind: REQUEST_KIND,
            phase: BODY_PHASE,
            due: 0,
            ftype: 0,
            owner: 0,
            room: 0,
            ..
        } if r.id % 4 == 0 && r.id < LIMIT && r.sum <= LIMIT && r.stated <= LIMIT => match r.has {
            0 => r.stated == 0,
            1 => true,
            _ => false,
        },
        _ => false,
    }
}

// Whether it is an open request in content, or between two frames behind its header section. Another may be open too.
pub fn in_body(r: Record) -> bool
    ensures { result ≡ true → Sound r × Body r × (r.mode ≤ IN-CONTENT) }
{
    if !behind(r) {
        return false;
    }
    if r.mode == CONTENT_MODE {
        return r.acc != 0 && r.acc < LIMIT;
    }
    r.mode == TYPE_MODE && r.acc == 0
}

// The record with what content alters of it.
pub fn in_content(r: Record, c: Cells) -> Record
    requires { c.mode < 256 }
    ensures { result ≡ content_in r c }
{
    Record {
        acc: c.acc,
        mode: c.mode as u8,
        sum: c.sum,
        ..r
    }
}

// The one record of an open stream's state.
pub fn row(s: Stream) -> Record
    requires { Fit s.kind s.id s.cells }
    ensures { Written s result }
{
    record_at(s.kind, s.id, tidy(s.cells))
}

// The same of any stream; of what is no open one, a free record.
pub fn write(s: Stream) -> Record
    ensures { Written s result }
{
    if fits(s.kind, s.id, s.cells) {
        row(s)
    } else {
        free()
    }
}
