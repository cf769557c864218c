// The calls of one one-way stream over its record and what the connection keeps beside it (document 01, "Frames"), by value: a number, and the
// record and the side that it leaves.
ghost use Rattle.std.specs.Prelude.{◌≡◌, ℕ, ◌+◌, ◌-◌, ◌%◌, ◌≤◌, ◌<◌, ◌^◌, min, ◌++◌, length};
ghost use Rattle.rules.specs.Events.{NOTHING};
ghost use Rattle.rules.specs.Numbers.{ACCEPTED};
ghost use Rattle.frames.specs.Modes.{IN-SETTINGS, SET};
ghost use Rattle.frames.specs.Answers.{kept_at};
ghost use Rattle.record.specs.Sound.{CellsIf, Fit, cells_in, stream, Written};
ghost use Rattle.control.specs.Rules.{control_of};
ghost use Rattle.oneway.specs.Stands.{cells_of, qpack_of};
ghost use Rattle.oneway.specs.Mirror.{seen_in, nothing_said, fresh_side, flag_of, number_if, kept_numbers, kept_in, bytes_of, side_of, bare_side, side_by};
ghost use Rattle.oneway.specs.Heard.{heard, taken_number, value_in, type_number, Heeds, state_here, judging, judged_here, feeding, fed_here, Stays, given_here, closed_here, HeardAs, FedAs};

use crate::{Event, OneAnswer, OneWay, Seen};
use control::Kept;
use frames::Cells;
use record::{Reading, Record, Stream};
use wire::ids::PushId;

// What a connection keeps of its one-way streams. control, encoder, decoder 0: no such stream has come. kept: what the control stream has said.
// held: how many bytes are kept of its payload that is not complete.
#[repr(C)]
#[derive(Clone, Copy)]
pub struct Side {
    pub control: u64,
    pub encoder: u64,
    pub decoder: u64,
    pub kept: Kept,
    pub held: u64,
    pub bytes: [u8; 256],
}

// How many bytes are kept, at most, of a payload that is not complete.
const ROOM: u64 = 256;

impl Side {
    // Which of the stream types that come once have come.
    fn seen(self) -> Seen
        ensures { result ≡ seen_in self }
    {
        Seen {
            control: self.control,
            encoder: self.encoder,
            decoder: self.decoder,
        }
    }
}

fn nothing_said() -> Kept
    ensures { result ≡ nothing_said }
{
    Kept {
        set: 0,
        limited: 0,
        size: 0,
        capacity: 0,
        blocked: 0,
        goaways: 0,
        goaway: PushId(0),
        pushes: 0,
        push: PushId(0),
    }
}

// No one-way stream has come yet.
pub fn fresh() -> Side
    ensures { result ≡ fresh_side }
{
    Side {
        control: 0,
        encoder: 0,
        decoder: 0,
        kept: nothing_said(),
        held: 0,
        bytes: [0; 256],
    }
}

// number: accepted, not an open one-way stream, no section is due, or the code. A part is len bytes of the piece from start on. used and heads: bytes and frame headers of the piece.
// value: the QPACK stream's type, or the push ID. Numbers (of rules), since the report that a host in C reads has them so.
#[derive(Clone, Copy)]
pub struct Heard {
    pub number: u64,
    pub event: u64,
    pub start: usize,
    pub len: u64,
    pub used: usize,
    pub heads: u64,
    pub value: u64,
    pub row: Record,
    pub side: Side,
}

// ---- what a control stream has said, in numbers that say nothing else

#[tactic(auto, unfolding(crate::specs::Mirror::flag_of))]
fn flag(x: u64) -> u64
    ensures { result ≡ flag_of x }
{
    u64::from(x != 0)
}

#[tactic(auto, unfolding(crate::specs::Mirror::number_if))]
fn number_if(has: u64, x: u64) -> u64
    ensures { result ≡ number_if has x }
{
    if has == 0 { 0 } else { x }
}

// Of a stream in this phase: SETTINGS have come if it is behind UNSET.
fn kept_in(phase: u64, k: Kept) -> Kept
    requires { phase ≤ SET }
    ensures { result ≡ kept_in phase k }
{
    Kept {
        set: u64::from(frames::UNSET < phase),
        ..k
    }
}

fn tidy_kept(k: Kept) -> Kept
    ensures { result ≡ kept_numbers (control_of k) }
{
    if k.set == 0 {
        return nothing_said();
    }
    Kept {
        set: 1,
        limited: flag(k.limited),
        size: number_if(k.limited, k.size),
        goaways: flag(k.goaways),
        goaway: PushId(number_if(k.goaways, k.goaway.0)),
        pushes: flag(k.pushes),
        push: PushId(number_if(k.pushes, k.push.0)),
        ..k
    }
}

// ---- the bytes of a payload that is not complete

// What was held, and what came.
fn joined(was: &[u8], word: &[u8]) -> [u8; 256]
    requires { length was.now + length word.now ≤ 256 }
    ensures { result ≡ bytes_of (was.now ++ word.now) }
{
    let mut room = [0; 256];
    let n = was.len();
    room[..n].copy_from_slice(was);
    room[n..n + word.len()].copy_from_slice(word);
    room
}

// How many bytes are held of a payload with acc to come.
fn held(acc: u64, n: u64) -> usize
    requires { acc ≤ 256 }
    ensures { result ≡ min n (256 - acc) }
{
    n.min(ROOM - acc) as usize
}

// ---- what a stream leaves

fn row_of(kind: u64, id: u64, cells: Cells) -> Record
    requires { Fit kind id cells }
    ensures { Written (stream kind id cells) result }
{
    record::row(Stream { kind, id, cells })
}

// Between two frames of a control stream, behind SETTINGS.
fn behind_settings() -> Cells
    ensures { result ≡ cells_of 0 0 4 }
{
    Cells {
        phase: frames::SET,
        ..Cells::default()
    }
}

// Of a control stream.
fn control_side(d: Side, kept: Kept, n: usize, bytes: [u8; 256]) -> Side
    ensures { result ≡ side_of 1 d.encoder d.decoder kept n bytes }
{
    Side {
        control: 1,
        kept,
        held: n as u64,
        bytes,
        ..d
    }
}

// Of any other kind: which of those that come once has come.
#[tactic(auto, unfolding(crate::specs::Mirror::bare_side))]
fn bare_side(d: Side, kind: u64) -> Side
    ensures { result ≡ bare_side d kind }
{
    match kind {
        record::ENCODER => Side { encoder: 1, ..d },
        record::DECODER => Side { decoder: 1, ..d },
        _ => d,
    }
}

// With no event and no value.
fn told(number: u64, used: usize, heads: u64, row: Record, side: Side) -> Heard
    ensures { result ≡ heard number NOTHING 0 0 used heads 0 row side }
{
    Heard {
        number,
        event: rules::NOTHING,
        start: 0,
        len: 0,
        used,
        heads,
        value: 0,
        row,
        side,
    }
}

// ---- a complete payload

#[tactic(auto, unfolding(crate::specs::Heard::taken_number, frames::specs::Answers::mode_kept, frames::specs::Modes::mode_of))]
fn taken_number(which: u64) -> u64
    ensures { result ≡ taken_number (kept_at which) }
{
    match which {
        frames::IN_SETTINGS => rules::SETTINGS,
        frames::IN_GOAWAY => rules::GOAWAY,
        frames::IN_MAX_PUSH_ID => rules::MAX_PUSH_ID,
        _ => rules::NOTHING,
    }
}

#[tactic(auto, unfolding(crate::specs::Heard::value_in, frames::specs::Answers::mode_kept, frames::specs::Modes::mode_of))]
fn value_in(which: u64, k: Kept) -> u64
    ensures { result ≡ value_in (kept_at which) k }
{
    match which {
        frames::IN_GOAWAY => k.goaway.0,
        frames::IN_MAX_PUSH_ID => k.push.0,
        _ => 0,
    }
}

// Judged; the stream goes on behind it. Which payload is its mode's number, as `control::judge` has it, which C calls too.
fn judged(
    which: u64,
    phase: u64,
    payload: &[u8],
    used: usize,
    heads: u64,
    r: Record,
    d: Side,
) -> Heard
    requires { (phase ≤ SET) × (r.id < 2 ^ 62) × (r.id % 4 ≡ 2) }
    ensures { (result ≡ judged_here which phase payload.now used heads r d) × Stays result.row result.side (judging which phase payload.now used heads d) }
{
    let v = control::judge(which, kept_in(phase, d.kept), payload);
    if v.number != rules::ACCEPTED {
        return told(v.number, used, heads, r, d);
    }
    let kept = tidy_kept(v.kept);
    let row = row_of(record::CONTROL, r.id, behind_settings());
    Heard {
        event: taken_number(which),
        value: value_in(which, kept),
        ..told(
            rules::ACCEPTED,
            used,
            heads,
            row,
            control_side(d, kept, 0, [0; 256]),
        )
    }
}

// ---- one feed

// On with a payload that an earlier piece began.
fn on_kept(r: Record, c: Cells, d: Side, piece: &[u8], allow: u64) -> Heard
    requires { Heeds r × (c ≡ cells_in r) × (IN-SETTINGS ≤ c.mode) }
    ensures { (result ≡ fed_here r d allow piece.now (state_here r d)) × Stays result.row result.side (feeding d allow piece.now (state_here r d)) }
{
    let n = held(c.acc, d.held);
    let came = piece.len() as u64;
    if c.acc <= came {
        let k = c.acc as usize;
        let all = joined(&d.bytes[..n], &piece[..k]);
        judged(c.mode, c.phase, &all[..n + k], k, 0, r, d)
    } else {
        let all = joined(&d.bytes[..n], piece);
        let less = Cells {
            acc: c.acc - came,
            ..c
        };
        let kept = tidy_kept(kept_in(c.phase, d.kept));
        told(
            rules::ACCEPTED,
            piece.len(),
            0,
            row_of(record::CONTROL, r.id, less),
            control_side(d, kept, n + piece.len(), all),
        )
    }
}

#[tactic(auto, unfolding(crate::specs::Heard::type_number, crate::specs::Stands::qpack_of))]
fn qpack_type(kind: u64) -> u64
    ensures { result ≡ type_number (qpack_of kind) }
{
    if kind == record::ENCODER {
        crate::ENCODER_TYPE
    } else {
        crate::DECODER_TYPE
    }
}

// Beside a stream of this kind, of whose kept payload the piece has this.
fn side_of(kind: u64, phase: u64, d: Side, word: &[u8]) -> Side
    requires { (phase ≤ SET) × (length word.now ≤ 256) }
    ensures { result ≡ side_by kind phase d word.now }
{
    if kind == record::CONTROL {
        let kept = tidy_kept(kept_in(phase, d.kept));
        control_side(d, kept, word.len(), joined(&[], word))
    } else {
        bare_side(d, kind)
    }
}

// Left open, beside what is kept of a payload that is not complete.
fn left_open(r: Record, phase: u64, d: Side, a: OneAnswer, word: &[u8]) -> Heard
    requires { Fit a.stream.kind r.id a.stream.cells × (phase ≤ SET) × (length word.now ≤ 256) }
    ensures { Written (stream a.stream.kind r.id a.stream.cells) result.row × (result ≡ heard ACCEPTED NOTHING 0 0 a.used a.heads 0 result.row (side_by a.stream.kind phase d word.now)) }
{
    let kind = a.stream.kind;
    told(
        rules::ACCEPTED,
        a.used,
        a.heads,
        row_of(kind, r.id, a.stream.cells),
        side_of(kind, phase, d, word),
    )
}

// On with a type, with frames, or with what has none.
fn on(r: Record, c: Cells, d: Side, piece: &[u8], allow: u64) -> Heard
    requires { Heeds r × (c ≡ cells_in r) × (c.mode < IN-SETTINGS) }
    ensures { (result ≡ fed_here r d allow piece.now (state_here r d)) × Stays result.row result.side (feeding d allow piece.now (state_here r d)) }
{
    let w = OneWay {
        kind: u64::from(r.kind),
        cells: c,
    };
    let a = crate::feed(piece, w, d.seen(), allow);
    match a.event {
        Event::Frames(brought) => match brought {
            frames::Event::Fault(code) => told(code.number(), a.used, a.heads, r, d),
            frames::Event::Kept(which) => judged(
                which,
                c.phase,
                &piece[a.start..a.used],
                a.used,
                a.heads,
                r,
                d,
            ),
            // All that came, and never more than there is room for.
            frames::Event::KeptPart => {
                let n = a.len.min(ROOM) as usize;
                left_open(r, c.phase, d, a, &piece[a.start..a.start + n])
            }
            frames::Event::Nothing
            | frames::Event::Content
            | frames::Event::Section
            | frames::Event::SectionEnd => left_open(r, c.phase, d, a, &[]),
        },
        Event::Qpack => Heard {
            event: rules::QPACK,
            start: a.start,
            len: a.len,
            value: qpack_type(a.stream.kind),
            ..left_open(r, c.phase, d, a, &[])
        },
    }
}

// ---- the calls

// Where an open one-way stream is, of its record.
fn opened(r: Record) -> Option<Cells>
    ensures { CellsIf (Heeds r) r result }
{
    match record::read(r) {
        Reading::Open(s)
            if record::UNTYPED <= s.kind
                && (s.cells.mode < frames::IN_SETTINGS || s.cells.acc <= ROOM) => { Some(s.cells) }
        _ => None,
    }
}

// One piece of the stream, with a frame allowance.
pub fn feed(r: Record, d: Side, piece: &[u8], allow: u64) -> Heard
    ensures { FedAs r d allow piece.now result }
{
    let Some(c) = opened(r) else {
        return told(rules::NOT_OPEN, 0, 0, r, d);
    };
    if c.mode < frames::IN_SETTINGS {
        on(r, c, d, piece, allow)
    } else {
        on_kept(r, c, d, piece, allow)
    }
}

// A section: none is ever due.
pub fn give(r: Record, d: Side) -> Heard
    ensures { HeardAs r d (given_here r d) result }
{
    let number = match opened(r) {
        Some(_) => rules::NO_SECTION,
        None => rules::NOT_OPEN,
    };
    told(number, 0, 0, r, d)
}

// The peer ends or resets the stream.
pub fn close(r: Record, d: Side) -> Heard
    ensures { HeardAs r d (closed_here r d) result }
{
    let Some(c) = opened(r) else {
        return told(rules::NOT_OPEN, 0, 0, r, d);
    };
    let w = OneWay {
        kind: u64::from(r.kind),
        cells: c,
    };
    match crate::close(w) {
        Ok(()) => Heard {
            event: rules::FREED,
            ..told(rules::ACCEPTED, 0, 0, record::free(), d)
        },
        Err(code) => told(code.number(), 0, 0, r, d),
    }
}
