// The lines of `lister` (document 01, "The writer and the lister"): the frames of one request stream, each section sound and without Content-Length.
#![tactic(auto)]

ghost use Rattle.std.specs.Prelude.{◌≡◌, ◌+◌, ◌≤◌, ◌<◌, ◌^◌};
ghost use Rattle.meaning.specs.FrameLaws.{head};
ghost use Rattle.listing.specs.Listing.{frame, whole, refused};
ghost use Rattle.listing.specs.Lines.{phase_number, first, end_line, ruled_line, line_at, next_of, use_of, entry_of};
ghost use Rattle.listing.specs.Text.{word, text_of};
ghost use Rattle.listing.specs.Put.{Put};
ghost use Rattle.listing.specs.Grown.{Extends};

mod room;

use frames::Use;
pub use room::Text;

// A longer input is not listed.
const LIMIT: usize = 65536;

// A sum of DATA lengths past the limit on content is as good as any other.
const PAST_CONTENT_LIMIT: u64 = 1048577;

// What a payload is for.
#[derive(Clone, Copy)]
pub enum Usage {
    Skipped,
    Content,
    HeaderSection,
    Trailers,
}

// Where a request's message is, between two frames.
#[derive(Clone, Copy)]
enum Phase {
    Opening,
    Body,
    Trailed,
}

impl Phase {
    fn number(self) -> u64
        ensures { result ≡ phase_number (Some self) }
    {
        match self {
            Phase::Opening => frames::OPENING,
            Phase::Body => frames::BODY,
            Phase::Trailed => frames::TRAILED,
        }
    }
}

// Where a listing is. at: the offset of the next frame; past the input, the input cuts the payload before it. Without a phase the heading is due.
// sum: of the DATA lengths.
#[derive(Clone, Copy)]
pub struct Place {
    at: usize,
    phase: Option<Phase>,
    sum: u64,
}

// A line, and where the listing goes on from it; the last three are last lines.
#[derive(Clone, Copy)]
pub enum Line {
    Heading(Place),
    Frame {
        at: usize,
        ftype: u64,
        len: u64,
        usage: Usage,
        next: Place,
    },
    Whole(usize),
    Refused {
        bytes: usize,
        code: u64,
    },
    TooLong,
}

// The input ends between two frames.
fn end_line(p: Place, phase: Phase, total: usize) -> Line
    requires { p.phase ≡ Some phase }
    ensures { result ≡ end_line total p }
{
    match phase {
        Phase::Opening => Line::Refused {
            bytes: total,
            code: rules::REQUEST_INCOMPLETE,
        },
        Phase::Body | Phase::Trailed => Line::Whole(total),
    }
}

// A whole header, its payload from `from` on.
fn ruled_line(p: Place, phase: Phase, from: usize, ftype: u64, len: u64) -> Line
    requires { (p.phase ≡ Some phase) × (from ≤ 65536) × (len < 2 ^ 62) }
    ensures { result ≡ ruled_line p (head p.at from ftype len) }
{
    let place = frames::Place {
        phase: phase.number(),
        stated: None,
        sum: p.sum.min(PAST_CONTENT_LIMIT),
    };
    let to = from + len as usize;
    let purpose = match place.rule(ftype, len) {
        Ok(purpose) => purpose,
        Err(code) => {
            return Line::Refused {
                bytes: from,
                code: code.number(),
            };
        }
    };
    let (usage, next) = match purpose {
        Use::Skipped => (Usage::Skipped, Place { at: to, ..p }),
        Use::Content => (
            Usage::Content,
            Place {
                at: to,
                sum: p.sum + len,
                ..p
            },
        ),
        Use::HeaderSection => (
            Usage::HeaderSection,
            Place {
                at: to,
                phase: Some(Phase::Body),
                sum: 0,
            },
        ),
        Use::Trailers => (
            Usage::Trailers,
            Place {
                at: to,
                phase: Some(Phase::Trailed),
                ..p
            },
        ),
        // a control stream's
        Use::Settings | Use::Goaway | Use::MaxPushId | Use::CancelPush => unreachable!(),
    };
    Line::Frame {
        at: p.at,
        ftype,
        len,
        usage,
        next,
    }
}

pub fn start() -> Place
    ensures { result ≡ first }
{
    Place {
        at: 0,
        phase: None,
        sum: 0,
    }
}

// The line at a place. From `start` on, line by line up to a last one, these are the lines of the listing (specs, Lists, `lists`).
pub fn next(s: &[u8], p: Place) -> Line
    ensures { result ≡ line_at s.now p }
{
    let total = s.len();
    let at = p.at;
    if LIMIT < total {
        return Line::TooLong;
    }
    let Some(phase) = p.phase else {
        return Line::Heading(Place {
            phase: Some(Phase::Opening),
            ..p
        });
    };
    if at == total {
        return end_line(p, phase, total);
    }
    let Some(here) = varint::ends(s, at) else {
        return Line::Refused {
            bytes: total,
            code: rules::FRAME_ERROR,
        };
    };
    let ftype = varint::value(s, at);
    let Some(from) = varint::ends(s, here) else {
        return Line::Refused {
            bytes: total,
            code: rules::FRAME_ERROR,
        };
    };
    ruled_line(p, phase, from, ftype, varint::value(s, here))
}

// ---- the text of a line

fn put_usage(text: &mut Text, usage: Usage)
    requires { text.old.length + 14 ≤ 2048 }
    ensures { Extends text.old (word (use_of usage)) text.new }
{
    match usage {
        Usage::Skipped => text.put(b"skipped"),
        Usage::Content => text.put(b"content"),
        Usage::HeaderSection => text.put(b"header section"),
        Usage::Trailers => text.put(b"trailers"),
    }
}

fn frame_text(text: &mut Text, at: u64, ftype: u64, len: u64, usage: Usage)
    requires { text.old.length + 78 ≤ 2048 }
    ensures { Extends text.old (text_of (frame at ftype len (use_of usage))) text.new }
{
    text.put_spaced(at);
    text.put_spaced(ftype);
    text.put_spaced(len);
    put_usage(text, usage);
    text.put(b"\n");
}

fn whole_text(text: &mut Text, total: u64)
    requires { text.old.length + 31 ≤ 2048 }
    ensures { Extends text.old (text_of (whole total)) text.new }
{
    text.put(b"end ");
    text.put_spaced(total);
    text.put(b"whole\n");
}

fn refused_text(text: &mut Text, bytes: u64, code: u64)
    requires { text.old.length + 50 ≤ 2048 }
    ensures { Extends text.old (text_of (refused bytes code)) text.new }
{
    text.put(b"refused ");
    text.put_spaced(bytes);
    text.put_decimal(code);
    text.put(b"\n");
}

impl Line {
    // Where the listing goes on; a last line leads nowhere.
    pub fn next(self) -> Option<Place>
        ensures { result ≡ next_of self }
    {
        match self {
            Line::Heading(next) | Line::Frame { next, .. } => Some(next),
            Line::Whole(_) | Line::Refused { .. } | Line::TooLong => None,
        }
    }

    // The line's text, in place of what the room held; the rest of the room stays. One behind the other, the texts of the lines are what is printed
    // (specs, Put, `prints`).
    pub fn write(self, text: &mut Text)
        ensures { Put text.old.room 0 (text_of (entry_of self)) text.new.room text.new.length }
    {
        text.clear();
        match self {
            Line::Heading(_) => text.put(b"offset type length use\n"),
            Line::Frame {
                at,
                ftype,
                len,
                usage,
                ..
            } => frame_text(text, at as u64, ftype, len, usage),
            Line::Whole(total) => whole_text(text, total as u64),
            Line::Refused { bytes, code } => refused_text(text, bytes as u64, code),
            Line::TooLong => text.put(b"too long\n"),
        }
    }
}
