// A client's one-way stream (document 01, "Frames"): its type, then as its type says; by value.
#![tactic(auto)]

pub mod calls;

ghost use Rattle.std.specs.Prelude.{◌≡◌, ◌≤◌, length};
ghost use Rattle.rules.specs.OneWay.{type_rule};
ghost use Rattle.varint.specs.ByByte.{part, Good};
ghost use Rattle.oneway.specs.Types.{seen_of, once_of, KindOf};
ghost use Rattle.oneway.specs.Stands.{number_in, stream_behind, OneSound, cells_of, OneFed};
ghost use Rattle.oneway.specs.Typed.{TypeRead};
ghost use Rattle.frames.specs.Modes.{UNSET};
ghost use Rattle.frames.specs.Answers.{Sane};
ghost use Rattle.record.specs.Kinds.{ENCODER};
ghost use Rattle.oneway.specs.Frames.{Controlled};
ghost use Rattle.oneway.specs.Fed.{untyped, quiet_at, Bare};
ghost use Rattle.oneway.specs.Closed.{Closes};

use frames::Cells;
use rules::codes::Code;
use std::ops::ControlFlow;
use varint::Part;

// The stream types that came before and may come once: 0 control, 2 QPACK encoder, 3 QPACK decoder. 0: it has not come.
#[repr(C)]
#[derive(Clone, Copy)]
pub struct Seen {
    pub control: u64,
    pub encoder: u64,
    pub decoder: u64,
}

// A kind of crate record, but a request. The cells are those of `frames`; before the
// type is whole acc and due hold what was read of it.
#[repr(C)]
#[derive(Clone, Copy)]
pub struct OneWay {
    pub kind: u64,
    pub cells: Cells,
}

// What a piece brought: what frames bring, with a fault at the type too; or QPACK stream bytes.
#[derive(Clone, Copy, Debug, PartialEq, Eq)]
pub enum Event {
    Frames(frames::Event),
    Qpack,
}

impl Event {
    // As a host's report has it.
    pub fn number(self) -> u64
        ensures { result ≡ number_in self }
    {
        match self {
            Event::Frames(event) => event.number(),
            Event::Qpack => rules::QPACK,
        }
    }
}

// A part is len bytes of the piece from start on. Of a kept payload that is complete the stream is where it is once that is judged good.
#[derive(Clone, Copy)]
pub struct OneAnswer {
    pub event: Event,
    pub start: usize,
    pub len: u64,
    pub used: usize,
    pub heads: u64,
    pub stream: OneWay,
}

// ---- the type

const CONTROL_TYPE: u64 = 0x00;

const PUSH_TYPE: u64 = 0x01;

const ENCODER_TYPE: u64 = 0x02;

const DECODER_TYPE: u64 = 0x03;

// A stream that a connection has once.
#[tactic(auto, unfolding(crate::specs::Types::once_of))]
fn once(came: u64, kind: u64) -> Result<u64, Code>
    ensures { result ≡ once_of came kind }
{
    if came == 0 {
        Ok(kind)
    } else {
        Err(Code::StreamCreationError)
    }
}

// The kind of a stream of this type, or the code that refuses it.
fn kind_of(t: u64, seen: Seen) -> Result<u64, Code>
    ensures { KindOf result (type_rule (seen_of seen) t) }
{
    match t {
        CONTROL_TYPE => once(seen.control, record::CONTROL),
        PUSH_TYPE => Err(Code::StreamCreationError),
        ENCODER_TYPE => once(seen.encoder, record::ENCODER),
        DECODER_TYPE => once(seen.decoder, record::DECODER),
        _ => Ok(record::SKIPPED),
    }
}

// A type read to its end, and where that is; or what the whole piece leaves of one.
fn type_on(s: &[u8], acc: u64, due: u64) -> Result<(u64, usize), Part>
    requires { Good (part acc due) }
    ensures { TypeRead s.now acc due result }
{
    let mut p = Part { acc, due };
    for (i, &b) in s.iter().enumerate() {
        match varint::read_step(p, b) {
            ControlFlow::Continue(q) => p = q,
            ControlFlow::Break(t) => return Ok((t, i + 1)),
        }
    }
    Err(p)
}

// ---- behind the type

// What was read of a type; or, with none of it, between two frames of a control stream, before SETTINGS or behind them.
fn cells(acc: u64, due: u64, phase: u64) -> Cells
    ensures { result ≡ cells_of acc due phase }
{
    Cells {
        acc,
        due,
        phase,
        ..Cells::default()
    }
}

// The piece is behind us, with nothing for the caller.
fn quiet(to: usize, w: OneWay) -> OneAnswer
    ensures { result ≡ quiet_at to w }
{
    OneAnswer {
        event: Event::Frames(frames::Event::Nothing),
        start: to,
        len: 0,
        used: to,
        heads: 0,
        stream: w,
    }
}

// A control stream behind its frames; a fault leaves what was before, a complete payload a place between two frames.
fn behind(event: frames::Event, w: OneWay, c: Cells) -> OneWay
    ensures { result ≡ stream_behind event w c }
{
    match event {
        frames::Event::Fault(_) => w,
        frames::Event::Kept(_) => OneWay {
            kind: record::CONTROL,
            cells: cells(0, 0, frames::SET),
        },
        _ => OneWay {
            kind: record::CONTROL,
            cells: c,
        },
    }
}

// The frames of a control stream, from at on; w is the stream before.
fn control(s: &[u8], at: usize, w: OneWay, c: Cells, allow: u64) -> OneAnswer
    requires { (at ≤ length s.now) × Sane c × (UNSET ≤ c.phase) × OneSound w }
    ensures { Controlled s.now at w c allow result }
{
    let a = frames::feed(&s[at..], c, allow);
    OneAnswer {
        event: Event::Frames(a.event),
        start: at + a.start,
        len: a.len,
        used: at + a.used,
        heads: a.heads,
        stream: behind(a.event, w, a.cells),
    }
}

// A QPACK or skipped stream, from at on.
fn bare(s: &[u8], at: usize, w: OneWay) -> OneAnswer
    requires { (at ≤ length s.now) × (ENCODER ≤ w.kind) }
    ensures { Bare s.now at w result }
{
    if record::DECODER < w.kind {
        quiet(s.len(), w)
    } else if at < s.len() {
        OneAnswer {
            event: Event::Qpack,
            start: at,
            len: (s.len() - at) as u64,
            ..quiet(s.len(), w)
        }
    } else {
        quiet(at, w)
    }
}

// ---- one feed

// On with a type.
fn typed(s: &[u8], c: Cells, seen: Seen, allow: u64) -> OneAnswer
    requires { Good (part c.acc c.due) }
    ensures { OneFed (untyped c) seen s.now allow result }
{
    match type_on(s, c.acc, c.due) {
        Err(p) => quiet(
            s.len(),
            OneWay {
                kind: record::UNTYPED,
                cells: cells(p.acc, p.due, frames::OPENING),
            },
        ),
        Ok((t, next)) => {
            let before = OneWay {
                kind: record::UNTYPED,
                cells: c,
            };
            match kind_of(t, seen) {
                Err(code) => OneAnswer {
                    event: Event::Frames(frames::Event::Fault(code)),
                    ..quiet(next, before)
                },
                Ok(record::CONTROL) => control(s, next, before, cells(0, 0, frames::UNSET), allow),
                Ok(kind) => bare(
                    s,
                    next,
                    OneWay {
                        kind,
                        cells: cells(0, 0, frames::OPENING),
                    },
                ),
            }
        }
    }
}

// One piece of a one-way stream, with this frame allowance.
pub fn feed(s: &[u8], w: OneWay, seen: Seen, allow: u64) -> OneAnswer
    requires { OneSound w }
    ensures { OneFed w seen s.now allow result }
{
    match w.kind {
        record::UNTYPED => typed(s, w.cells, seen, allow),
        record::CONTROL => control(s, 0, w, w.cells, allow),
        _ => bare(s, 0, w),
    }
}

// A one-way stream ended or reset: freed, or the code.
#[tactic(auto, unfolding(crate::specs::Closed::closes, crate::specs::Closed::number_in, crate::specs::Stands::one_state_at))]
pub fn close(w: OneWay) -> Result<(), Code>
    ensures { Closes w result }
{
    match w.kind {
        record::CONTROL..=record::DECODER => Err(Code::ClosedCriticalStream),
        _ => Ok(()),
    }
}
