// Calls on one stream for a tester in another language (tests/feeds): by value, in numbers, for any numbers.
ghost use Rattle.std.specs.Prelude.{◌≡◌};
ghost use Rattle.frames.specs.End.{Ends};
ghost use Rattle.record.specs.Sound.{Decides};
ghost use Rattle.requests.specs.Taken.{given_of};
ghost use Rattle.oneway.specs.Stands.{number_in, OneSound};
ghost use Rattle.control.specs.Judged.{judged_of};
ghost use Rattle.tried_c.specs.StreamNumbers.{refused, report_of, Reported, given_from};
ghost use Rattle.tried_c.specs.OneWayNumbers.{way_report, payload_in, way_refused, way_report_of, WayReported};

use control::{Kept, Verdict};
use frames::{Answer, Cells};
use oneway::{OneAnswer, OneWay, Seen};

// number 0: accepted, 4: a section is due, 10: no stream is there, else the code. The rest as `frames::Answer` has it.
#[repr(C)]
#[derive(Clone, Copy)]
pub struct Report {
    pub number: u64,
    pub event: u64,
    pub start: usize,
    pub len: u64,
    pub used: usize,
    pub heads: u64,
    pub cells: Cells,
}

// ---- the calls

// The number beside those of rules: at such numbers there is no stream.
const NO_STREAM: u64 = 10;

fn refusal(number: u64, at: Cells) -> Report
    ensures { result ≡ refused number at }
{
    Report {
        number,
        event: rules::NOTHING,
        start: 0,
        len: 0,
        used: 0,
        heads: 0,
        cells: at,
    }
}

// A fault leaves the stream where it stood.
#[tactic(auto, unfolding(crate::specs::StreamNumbers::said))]
fn reported(a: Answer, at: Cells) -> Report
    ensures { result ≡ report_of at a }
{
    match a.event {
        frames::Event::Fault(code) => Report {
            used: a.used,
            heads: a.heads,
            ..refusal(code.number(), at)
        },
        event => Report {
            number: rules::ACCEPTED,
            event: event.number(),
            start: a.start,
            len: a.len,
            used: a.used,
            heads: a.heads,
            cells: a.cells,
        },
    }
}

// A piece of a request stream, or of a control stream behind its type.
#[unsafe(no_mangle)]
pub extern "C" fn eist_feed(at: Cells, piece: &[u8], allow: u64) -> Report
    ensures { Reported at piece.now allow result }
{
    if !record::is_sane(at) {
        return refusal(NO_STREAM, at);
    }
    match at.mode {
        frames::HEADER_SECTION_DUE | frames::TRAILERS_DUE => refusal(rules::SECTION_DUE, at),
        _ => reported(frames::feed(piece, at, allow), at),
    }
}

// The number, and where the stream is then.
#[repr(C)]
#[derive(Clone, Copy)]
pub struct Given {
    pub number: u64,
    pub cells: Cells,
}

#[unsafe(no_mangle)]
pub extern "C" fn eist_give(at: Cells, block: &[u8]) -> Given
    ensures { result ≡ given_from at (given_of at block.now) }
{
    match requests::given::give(at, block) {
        Ok(cells) => Given {
            number: rules::ACCEPTED,
            cells,
        },
        Err(number) => Given { number, cells: at },
    }
}

// 0: whole, 4: a section is due, else the code.
#[unsafe(no_mangle)]
pub extern "C" fn eist_end(at: Cells) -> u64
    ensures { Ends at result }
{
    frames::end(at)
}

// ---- one-way streams

// number 0: accepted, 10: no stream is there, else the code. The rest as `oneway::OneAnswer` has it.
#[repr(C)]
#[derive(Clone, Copy)]
pub struct WayReport {
    pub number: u64,
    pub event: u64,
    pub start: usize,
    pub len: u64,
    pub used: usize,
    pub heads: u64,
    pub payload: u64,
    pub stream: OneWay,
}

#[tactic(auto, unfolding(oneway::specs::Stands::OneSoundAt))]
fn is_sound(w: OneWay) -> bool
    ensures { Decides (OneSound w) result }
{
    match w.kind {
        record::FREE | record::REQUEST => false,
        record::UNTYPED => record::is_part(w.cells.acc, w.cells.due),
        record::CONTROL => frames::UNSET <= w.cells.phase && record::is_sane(w.cells),
        _ => true,
    }
}

fn way_refusal(number: u64, at: OneWay) -> WayReport
    ensures { result ≡ way_refused number at }
{
    WayReport {
        number,
        event: rules::NOTHING,
        start: 0,
        len: 0,
        used: 0,
        heads: 0,
        payload: 0,
        stream: at,
    }
}

// The mode of a payload that is complete, or 0.
#[tactic(auto, unfolding(crate::specs::OneWayNumbers::payload_in))]
fn payload(event: oneway::Event) -> u64
    ensures { result ≡ payload_in event }
{
    match event {
        oneway::Event::Frames(frames::Event::Kept(which)) => which,
        _ => 0,
    }
}

fn way_taken(a: OneAnswer) -> WayReport
    ensures { result ≡ way_report 0 (number_in a.event) a.start a.len a.used a.heads (payload_in a.event) a.stream }
{
    WayReport {
        number: rules::ACCEPTED,
        event: a.event.number(),
        start: a.start,
        len: a.len,
        used: a.used,
        heads: a.heads,
        payload: payload(a.event),
        stream: a.stream,
    }
}

#[tactic(auto, unfolding(crate::specs::OneWayNumbers::way_said, crate::specs::OneWayNumbers::payload_in))]
fn way_reported(a: OneAnswer, at: OneWay) -> WayReport
    ensures { result ≡ way_report_of at a }
{
    match a.event {
        oneway::Event::Frames(brought) => match brought {
            frames::Event::Fault(code) => WayReport {
                used: a.used,
                heads: a.heads,
                ..way_refusal(code.number(), at)
            },
            _ => way_taken(a),
        },
        oneway::Event::Qpack => way_taken(a),
    }
}

#[unsafe(no_mangle)]
pub extern "C" fn eist_feed_way(at: OneWay, came: Seen, piece: &[u8], allow: u64) -> WayReport
    ensures { WayReported at came piece.now allow result }
{
    if is_sound(at) {
        way_reported(oneway::feed(piece, at, came, allow), at)
    } else {
        way_refusal(NO_STREAM, at)
    }
}

// A control stream's complete payload.
#[unsafe(no_mangle)]
pub extern "C" fn eist_judge(which: u64, kept: Kept, payload: &[u8]) -> Verdict
    ensures { result ≡ judged_of which kept payload.now }
{
    control::judge(which, kept, payload)
}
