// The frames of a request or control stream (document 01, "Frames"), read in pieces.
#![tactic(auto)]

ghost use Rattle.std.specs.Prelude.{◌≡◌, ◌+◌, ◌≤◌, ◌<◌, ◌^◌, length, Some, None, IfSome, Ok};
ghost use Rattle.frames.specs.Both.{rule};
ghost use Rattle.frames.specs.Modes.{BODY, UNSET, IN-SKIPPED, IN-CONTENT};
ghost use Rattle.frames.specs.Uses.{place_of, number_of, passes_of};
ghost use Rattle.frames.specs.Wants.{mode_in, use_in, ruled_in, wanted_in, halt_at, stated_in, has_in, length_in};
ghost use Rattle.frames.specs.declared.Use.TheVariants.{Skipped};
ghost use Rattle.frames.specs.declared.Event.TheVariants as event;
ghost use Rattle.frames.specs.Ruled.{one_of};
ghost use Rattle.frames.specs.Heads.{head_in, GoodHead, HeadStepped, HeadRead};
ghost use Rattle.frames.specs.Answers.{event_number, Sane, Numbers, HandedMode, Tells, Answers, in_mode, Content, Hands, answer};
ghost use Rattle.frames.specs.Stopped.{more_sum, from_stop};
ghost use Rattle.frames.specs.Begun.{head_cells, from_cut, start, Started};
ghost use Rattle.frames.specs.Fed.{Fed, FedContent};
ghost use Rattle.frames.specs.End.{tally_of, cut_of, Ends};
ghost use Rattle.frames.specs.Stops.{Lawful, Unready, Stuck, Stop, header_of, stop_of, HeaderAt};

use rules::codes::Code;
use std::ops::ControlFlow;
use varint::Part;

// What a header's payload is for.
#[derive(Clone, Copy, Debug, PartialEq, Eq)]
pub enum Use {
    Skipped,
    Content,
    HeaderSection,
    Trailers,
    Settings,
    Goaway,
    MaxPushId,
    CancelPush,
}

// The phases of a request, in numbers as the cells have them.
pub const OPENING: u64 = 0;

pub const BODY: u64 = 1;

pub const TRAILED: u64 = 2;

// A control stream's, before SETTINGS and behind them.
pub const UNSET: u64 = 3;

pub const SET: u64 = 4;

// A place inside a frame: in its header, in its payload by what that is for, or at its end while a section is due.
// What comes before a payload, what is shown, what is due and what is kept are next to one another in this order. Numbers, as the cells have them.
pub const IN_TYPE: u64 = 0;

pub const IN_LENGTH: u64 = 1;

pub const IN_SKIPPED: u64 = 2;

pub const IN_CONTENT: u64 = 3;

pub const IN_HEADER_SECTION: u64 = 4;

pub const IN_TRAILERS: u64 = 5;

pub const HEADER_SECTION_DUE: u64 = 6;

pub const TRAILERS_DUE: u64 = 7;

pub const IN_SETTINGS: u64 = 8;

pub const IN_GOAWAY: u64 = 9;

pub const IN_MAX_PUSH_ID: u64 = 10;

pub const IN_CANCEL_PUSH: u64 = 11;

// The types of frames that are known.
const DATA: u64 = 0x00;

const HEADERS: u64 = 0x01;

const CANCEL_PUSH: u64 = 0x03;

const SETTINGS: u64 = 0x04;

const GOAWAY: u64 = 0x07;

const LAST_RESERVED: u64 = 0x09;

const MAX_PUSH_ID: u64 = 0x0d;

// The longest that is taken: a header section, SETTINGS, an integer, content of no stated length.
const HEADERS_LIMIT: u64 = 16384;

const SETTINGS_LIMIT: u64 = 256;

const INTEGER_LIMIT: u64 = 8;

const CONTENT_LIMIT: u64 = 1048576;

// ---- the frame table

impl Use {
    // The mode in its payload.
    fn mode(self) -> u64
        ensures { result ≡ mode_in self }
    {
        match self {
            Use::Skipped => IN_SKIPPED,
            Use::Content => IN_CONTENT,
            Use::HeaderSection => IN_HEADER_SECTION,
            Use::Trailers => IN_TRAILERS,
            Use::Settings => IN_SETTINGS,
            Use::Goaway => IN_GOAWAY,
            Use::MaxPushId => IN_MAX_PUSH_ID,
            Use::CancelPush => IN_CANCEL_PUSH,
        }
    }
}

// A place between two frames: its phase, a number as the cells of the C interface have it; the length that is stated; the sum of DATA.
#[derive(Clone, Copy)]
pub struct Place {
    pub phase: u64,
    pub stated: Option<u64>,
    pub sum: u64,
    pub ghost sums: { sum ≤ 2 ^ 62 },
}

impl Place {
    // What a whole header's payload is for here, or the code that refuses it.
    #[inline(always)]
    pub fn rule(&self, ftype: u64, len: u64) -> Result<Use, Code>
        requires { len < 2 ^ 62 }
        ensures { ruled_in result ≡ number_of (rule (place_of self.now.phase (has_in self.now.stated) (length_in self.now.stated) self.now.sum) ftype len) }
    {
        if self.phase < UNSET {
            self.request_rule(ftype, len)
        } else {
            self.control_rule(ftype, len)
        }
    }

    // The frame table's first column.
    fn request_rule(&self, ftype: u64, len: u64) -> Result<Use, Code>
        requires { (self.now.phase < UNSET) × (len < 2 ^ 62) }
        ensures { ruled_in result ≡ number_of (rule (place_of self.now.phase (has_in self.now.stated) (length_in self.now.stated) self.now.sum) ftype len) }
    {
        match ftype {
            DATA => {
                if self.phase == BODY {
                    self.data_rule(len)
                } else {
                    Err(Code::FrameUnexpected)
                }
            }
            HEADERS => {
                if self.phase == TRAILED {
                    Err(Code::FrameUnexpected)
                } else if HEADERS_LIMIT < len {
                    Err(Code::ExcessiveLoad)
                } else if self.phase == OPENING {
                    Ok(Use::HeaderSection)
                } else {
                    Ok(Use::Trailers)
                }
            }
            2..=LAST_RESERVED | MAX_PUSH_ID => Err(Code::FrameUnexpected),
            _ => Ok(Use::Skipped),
        }
    }

    // DATA of a length, behind the header section.
    fn data_rule(&self, len: u64) -> Result<Use, Code>
        requires { len < 2 ^ 62 }
        ensures { ruled_in result ≡ number_of (rule (place_of BODY (has_in self.now.stated) (length_in self.now.stated) self.now.sum) 0 len) }
    {
        let total = self.sum + len;
        match self.stated {
            Some(stated) => {
                if stated < total {
                    Err(Code::MessageError)
                } else {
                    Ok(Use::Content)
                }
            }
            None => {
                if CONTENT_LIMIT < total {
                    Err(Code::RequestCancelled)
                } else {
                    Ok(Use::Content)
                }
            }
        }
    }

    // The frame table's second column.
    fn control_rule(&self, ftype: u64, len: u64) -> Result<Use, Code>
        requires { UNSET ≤ self.now.phase }
        ensures { ruled_in result ≡ number_of (rule (place_of self.now.phase 0 0 0) ftype len) }
    {
        if self.phase == UNSET {
            return match ftype {
                SETTINGS => {
                    if SETTINGS_LIMIT < len {
                        Err(Code::ExcessiveLoad)
                    } else {
                        Ok(Use::Settings)
                    }
                }
                _ => Err(Code::MissingSettings),
            };
        }
        match ftype {
            GOAWAY => one_integer(len, Use::Goaway),
            MAX_PUSH_ID => one_integer(len, Use::MaxPushId),
            CANCEL_PUSH => one_integer(len, Use::CancelPush),
            0..=LAST_RESERVED => Err(Code::FrameUnexpected),
            _ => Ok(Use::Skipped),
        }
    }
}

// A frame that holds one integer.
fn one_integer(len: u64, wanted: Use) -> Result<Use, Code>
    ensures { ruled_in result ≡ one_of len (use_in wanted) }
{
    match len {
        1..=INTEGER_LIMIT => Ok(wanted),
        _ => Err(Code::FrameError),
    }
}

// ---- the two readers

// Whether a payload is passed with nothing for the caller.
fn passes(left: u64, wanted: Use, room: u64) -> bool
    ensures { result ≡ passes_of left (use_in wanted) room }
{
    match wanted {
        Use::Skipped => left <= room,
        Use::Content => left == 0,
        _ => false,
    }
}

// A header that is whole; next: where its payload begins.
#[derive(Clone, Copy)]
struct FrameHeader {
    ftype: u64,
    len: u64,
    next: usize,
}

// Inlined, as the table is: the readers are one loop then.
#[inline(always)]
fn whole_header(s: &[u8], at: usize) -> Option<FrameHeader>
    ensures { HeaderAt s.now at result }
{
    let middle = varint::ends(s, at)?;
    let next = varint::ends(s, middle)?;
    Some(FrameHeader {
        ftype: varint::value(s, at),
        len: varint::value(s, middle),
        next,
    })
}

// Where the readers stop: at a payload with bytes to come, behind a header that is refused, or, with nothing wanted, at one that is not whole or not
// allowed. rest: the allowance left.
#[derive(Clone, Copy)]
struct Halt {
    at: usize,
    left: u64,
    wanted: Option<Result<Use, Code>>,
    rest: u64,
}

impl Halt {
    // Field by field: a literal would be copied, and the readers would be no loop.
    #[inline]
    fn stop(&mut self, at: usize, left: u64, wanted: Option<Result<Use, Code>>, rest: u64)
        ensures { self.new ≡ halt_at at left wanted rest }
    {
        self.at = at;
        self.left = left;
        self.wanted = wanted;
        self.rest = rest;
    }
}

// A header, and what follows it, up to a stop. The stop is lent: a struct handed back through each call would keep the pair from being compiled to a loop.
#[cycle(header_payload)]
fn header(s: &[u8], at: usize, place: &Place, allow: u64, halt: &mut Halt)
    requires { (at ≤ length s.now) × (length_in place.now.stated ≤ 2 ^ 62) }
    ensures { Stop s.now place.now.phase (has_in place.now.stated) (length_in place.now.stated) place.now.sum at allow (header_of s.now allow at) halt.new.at halt.new.left halt.new.rest (wanted_in halt.new.wanted) }
{
    if allow != 0
        && let Some(h) = whole_header(s, at)
    {
        match place.rule(h.ftype, h.len) {
            Ok(wanted) => payload(s, h.next, h.len, wanted, place, allow - 1, halt),
            Err(code) => {
                halt.stop(h.next, h.len, Some(Err(code)), allow - 1);
            }
        }
    } else {
        halt.stop(at, 0, None, allow);
    }
}

// A payload, and what follows it, up to a stop.
#[cycle(header_payload)]
fn payload(s: &[u8], at: usize, left: u64, wanted: Use, place: &Place, allow: u64, halt: &mut Halt)
    requires { (at ≤ length s.now) × (length_in place.now.stated ≤ 2 ^ 62) × (left < 2 ^ 62) × Lawful (use_in wanted) place.now.phase place.now.sum left }
    ensures { Stop s.now place.now.phase (has_in place.now.stated) (length_in place.now.stated) place.now.sum at allow (stop_of s.now (use_in wanted) left allow at) halt.new.at halt.new.left halt.new.rest (wanted_in halt.new.wanted) }
{
    if passes(left, wanted, (s.len() - at) as u64) {
        header(s, at + left as usize, place, allow, halt);
    } else {
        halt.stop(at, left, Some(Ok(wanted)), allow);
    }
}

// ---- a header that a piece cuts

// A header of which some bytes were read: in its type, or in the length behind it.
#[derive(Clone, Copy)]
enum Head {
    InType(Part),
    InLength { ftype: u64, part: Part },
}

impl Head {
    // One byte more, behind which `next` is: the header goes on, or is whole.
    fn step(self, b: u8, next: usize) -> ControlFlow<FrameHeader, Head>
        requires { GoodHead self }
        ensures { HeadStepped self b next result }
    {
        match self {
            Head::InType(part) => match varint::read_step(part, b) {
                ControlFlow::Continue(part) => ControlFlow::Continue(Head::InType(part)),
                ControlFlow::Break(ftype) => ControlFlow::Continue(Head::InLength {
                    ftype,
                    part: varint::fresh(),
                }),
            },
            Head::InLength { ftype, part } => match varint::read_step(part, b) {
                ControlFlow::Continue(part) => ControlFlow::Continue(Head::InLength {
                    ftype,
                    part,
                }),
                ControlFlow::Break(len) => ControlFlow::Break(FrameHeader { ftype, len, next }),
            },
        }
    }
}

// On to the header's end, or the piece's.
fn head_on(piece: &[u8], mut head: Head) -> Result<FrameHeader, Head>
    requires { GoodHead head }
    ensures { HeadRead piece.now head result }
{
    for (i, b) in piece.iter().enumerate() {
        match head.step(*b, i + 1) {
            ControlFlow::Continue(on) => head = on,
            ControlFlow::Break(whole) => return Ok(whole),
        }
    }
    Err(head)
}

// ---- one feed

// Where a stream is, in numbers: its mode, as above;
// acc: the value of an integer's bytes so far, or the payload's bytes to come; due: the integer's bytes to come; ftype: the type before a length.
// phase, has, stated, sum: the place between two frames, as above.
#[repr(C)]
#[derive(Clone, Copy, Default, PartialEq, Eq)]
pub struct Cells {
    pub mode: u64,
    pub acc: u64,
    pub due: u64,
    pub ftype: u64,
    pub phase: u64,
    pub has: u64,
    pub stated: u64,
    pub sum: u64,
}

// What a piece brought: a part of content or of a section, a fault, the end of a kept payload, with its mode, or a part of one.
#[derive(Clone, Copy, Debug, PartialEq, Eq)]
pub enum Event {
    Nothing,
    Content,
    Section,
    SectionEnd,
    Fault(Code),
    Kept(u64),
    KeptPart,
}

impl Event {
    // As a host's report has it.
    pub fn number(self) -> u64
        ensures { result ≡ event_number self }
    {
        match self {
            Event::Nothing => rules::NOTHING,
            Event::Content => rules::CONTENT,
            Event::Section => rules::SECTION,
            Event::SectionEnd => rules::SECTION_END,
            Event::Fault(_) => rules::FAULT,
            Event::Kept(_) => rules::KEPT,
            Event::KeptPart => rules::KEPT_PART,
        }
    }
}

// A part is len bytes of the piece from start on.
#[derive(Clone, Copy)]
pub struct Answer {
    pub event: Event,
    pub start: usize,
    pub len: u64,
    pub used: usize,
    pub heads: u64,
    pub cells: Cells,
}

impl Cells {
    fn place(&self) -> Place
        requires { self.now.sum ≤ 2 ^ 62 }
        ensures phase { result.phase ≡ self.now.phase }
        ensures stated { result.stated ≡ stated_in self.now.has self.now.stated }
        ensures sum { result.sum ≡ self.now.sum }
    {
        Place {
            phase: self.phase,
            stated: if self.has == 0 {
                None
            } else {
                Some(self.stated)
            },
            sum: self.sum,
        }
    }

    // A header that was begun.
    fn head(&self) -> Head
        ensures { result ≡ head_in self.now }
    {
        let part = Part {
            acc: self.acc,
            due: self.due,
        };
        match self.mode {
            IN_TYPE => Head::InType(part),
            _ => Head::InLength {
                ftype: self.ftype,
                part,
            },
        }
    }
}

fn in_mode(c: Cells, mode: u64, acc: u64) -> Cells
    ensures { result ≡ in_mode c mode acc }
{
    Cells {
        mode,
        acc,
        due: 0,
        ftype: 0,
        ..c
    }
}

// No event, at the end of what was used.
fn quiet(used: usize, heads: u64, cells: Cells) -> Answer
    ensures { result ≡ answer event.Nothing used 0 used heads cells }
{
    Answer {
        event: Event::Nothing,
        start: used,
        len: 0,
        used,
        heads,
        cells,
    }
}

// How the parts of a payload are reported: the event of the last one, of one before it, and the mode behind the payload.
#[derive(Clone, Copy)]
struct Telling {
    last: Event,
    part: Event,
    behind: u64,
}

fn told(mode: u64) -> Telling
    requires { HandedMode mode }
    ensures { Tells mode result }
{
    match mode {
        IN_CONTENT => Telling {
            last: Event::Content,
            part: Event::Content,
            behind: IN_TYPE,
        },
        IN_HEADER_SECTION => Telling {
            last: Event::SectionEnd,
            part: Event::Section,
            behind: HEADER_SECTION_DUE,
        },
        IN_TRAILERS => Telling {
            last: Event::SectionEnd,
            part: Event::Section,
            behind: TRAILERS_DUE,
        },
        _ => Telling {
            last: Event::Kept(mode),
            part: Event::KeptPart,
            behind: mode,
        },
    }
}

// A payload that is handed on, or kept by the caller and judged when it is complete: as much of it as is there.
fn handed(s: &[u8], at: usize, left: u64, mode: u64, c: Cells, heads: u64) -> Answer
    requires { (at ≤ length s.now) × (left < 2 ^ 62) × Numbers c × HandedMode mode × (mode ≡ IN-CONTENT → 0 < left) }
    ensures { Hands c s.now at heads mode left result }
{
    let t = told(mode);
    let room = (s.len() - at) as u64;
    if left <= room {
        Answer {
            event: t.last,
            start: at,
            len: left,
            ..quiet(at + left as usize, heads, in_mode(c, t.behind, 0))
        }
    } else if room == 0 {
        quiet(at, heads, in_mode(c, mode, left))
    } else {
        Answer {
            event: t.part,
            start: at,
            len: room,
            ..quiet(s.len(), heads, in_mode(c, mode, left - room))
        }
    }
}

fn more_sum(c: Cells, len: u64) -> Cells
    requires { c.sum + len ≤ 2 ^ 62 }
    ensures { result ≡ more_sum c len }
{
    Cells {
        sum: c.sum + len,
        ..c
    }
}

fn head_cells(h: Head, c: Cells) -> Cells
    ensures { result ≡ head_cells h c }
{
    match h {
        Head::InType(part) => Cells {
            mode: IN_TYPE,
            acc: part.acc,
            due: part.due,
            ..c
        },
        Head::InLength { ftype, part } => Cells {
            mode: IN_LENGTH,
            acc: part.acc,
            due: part.due,
            ftype,
            ..c
        },
    }
}

// A header that the piece ends in.
fn cut_header(s: &[u8], to: usize, c: Cells, heads: u64) -> Answer
    requires { (to ≤ length s.now) × Numbers c × Unready s.now to }
    ensures { Answers c s.now 1 (from_cut s.now to heads) result }
{
    match head_on(&s[to..], Head::InType(varint::fresh())) {
        Err(head) => quiet(s.len(), heads, head_cells(head, Cells { ftype: 0, ..c })),
        Ok(_) => unreachable!(),
    }
}

// What the reading stopped at.
fn stopped(s: &[u8], h: Halt, c: Cells, heads: u64) -> Answer
    requires { (h.at ≤ length s.now) × (h.left < 2 ^ 62) × Sane c × Stuck s.now c.phase c.sum h.at h.left h.rest (wanted_in h.wanted) }
    ensures { Answers c s.now 1 (from_stop s.now h.at heads (wanted_in h.wanted) h.left h.rest) result }
{
    match h.wanted {
        None => {
            if h.rest == 0 {
                quiet(h.at, heads, in_mode(c, IN_TYPE, 0))
            } else {
                cut_header(s, h.at, c, heads)
            }
        }
        Some(Err(code)) => Answer {
            event: Event::Fault(code),
            ..quiet(h.at, heads, c)
        },
        Some(Ok(Use::Content)) => {
            handed(s, h.at, h.left, IN_CONTENT, more_sum(c, h.left), heads)
        }
        Some(Ok(Use::Skipped)) => {
            let room = (s.len() - h.at) as u64;
            quiet(s.len(), heads, in_mode(c, IN_SKIPPED, h.left - room))
        }
        Some(Ok(wanted)) => handed(s, h.at, h.left, wanted.mode(), c, heads),
    }
}

// Where a feed begins: at a payload, or, with nothing wanted, nowhere, and then the cells are what is left.
#[derive(Clone, Copy)]
struct Start {
    at: usize,
    left: u64,
    wanted: Option<Result<Use, Code>>,
    heads: u64,
    cells: Cells,
}

impl Start {
    // Skipped bytes are to come, or none.
    fn skipping(left: u64, cells: Cells) -> Start
        ensures { result ≡ start 0 left (Some (Ok Skipped)) 0 cells }
    {
        Start {
            at: 0,
            left,
            wanted: Some(Ok(Use::Skipped)),
            heads: 0,
            cells,
        }
    }

    fn nowhere(at: usize, cells: Cells) -> Start
        ensures { result ≡ start at 0 None 0 cells }
    {
        Start {
            at,
            left: 0,
            wanted: None,
            heads: 0,
            cells,
        }
    }
}

// On with a header or a skipped payload.
fn begin(s: &[u8], c: Cells, allow: u64) -> Start
    requires { Sane c × (c.mode < IN-CONTENT) }
    ensures { Started c s.now allow result }
{
    match c.mode {
        IN_SKIPPED => Start::skipping(c.acc, c),
        IN_TYPE if c.due == 0 => Start::skipping(0, c),
        _ => begun(s, c, allow),
    }
}

// On with a header that an earlier piece began.
fn begun(s: &[u8], c: Cells, allow: u64) -> Start
    requires { Sane c × (c.mode < IN-SKIPPED) }
    ensures { Started c s.now allow result }
{
    if allow == 0 {
        return Start::nowhere(0, c);
    }
    match head_on(s, c.head()) {
        Ok(h) => Start {
            at: h.next,
            left: h.len,
            wanted: Some(c.place().rule(h.ftype, h.len)),
            heads: 1,
            cells: c,
        },
        Err(head) => Start::nowhere(s.len(), head_cells(head, c)),
    }
}

// Up to a stop, from a payload, or from behind a header that is refused.
fn up_to_stop(
    s: &[u8],
    at: usize,
    left: u64,
    wanted: Result<Use, Code>,
    c: Cells,
    allow: u64,
) -> Halt
    requires { (at ≤ length s.now) × Numbers c × (left < 2 ^ 62) × Lawful (ruled_in wanted) c.phase c.sum left }
    ensures { Stop s.now c.phase c.has c.stated c.sum at allow (stop_of s.now (ruled_in wanted) left allow at) result.at result.left result.rest (wanted_in result.wanted) }
{
    let mut halt = Halt {
        at,
        left,
        wanted: Some(wanted),
        rest: allow,
    };
    match wanted {
        Ok(wanted) => {
            payload(s, at, left, wanted, &c.place(), allow, &mut halt);
            halt
        }
        Err(_) => halt,
    }
}

// By the readers, from where the feed begins.
fn read(s: &[u8], c: Cells, allow: u64) -> Answer
    requires { Sane c × (c.mode < IN-CONTENT) }
    ensures { Fed c s.now allow result }
{
    let b = begin(s, c, allow);
    match b.wanted {
        None => quiet(b.at, 0, b.cells),
        Some(wanted) => {
            let halt = up_to_stop(s, b.at, b.left, wanted, c, allow - b.heads);
            stopped(s, halt, c, allow - halt.rest)
        }
    }
}

// One piece of a request stream or of a control stream behind its type, at these cells, with this frame allowance.
pub fn feed(s: &[u8], c: Cells, allow: u64) -> Answer
    requires { Sane c }
    ensures { Fed c s.now allow result }
{
    match c.mode {
        IN_TYPE..=IN_SKIPPED => read(s, c, allow),
        // apart from the kept payloads below: one arm for both costs instructions
        IN_CONTENT..=IN_TRAILERS => handed(s, 0, c.acc, c.mode, c, 0),
        HEADER_SECTION_DUE | TRAILERS_DUE => quiet(0, 0, c),
        _ => handed(s, 0, c.acc, c.mode, c, 0),
    }
}

// An answer that is content.
fn content(a: Answer) -> Option<Answer>
    ensures { IfSome result (λ b. (b.event ≡ event.Content) × (b ≡ a)) }
{
    match a.event {
        Event::Content => Some(a),
        _ => None,
    }
}

// A feed that begins in content, or with a DATA frame's header that is whole in the piece: its event is content, and the answer is that of `feed`.
// None says nothing.
pub fn brisk(s: &[u8], c: Cells, allow: u64) -> Option<Answer>
    requires { Sane c }
    ensures { IfSome result (FedContent c s.now allow) }
{
    if c.mode == IN_CONTENT {
        return content(handed(s, 0, c.acc, IN_CONTENT, c, 0));
    }
    if c.mode == IN_TYPE
        && c.due == 0
        && allow != 0
        && let [0, ..] = s
        && let Some(h) = whole_header(s, 0)
        && h.len != 0
        && let Ok(Use::Content) = c.place().rule(h.ftype, h.len)
    {
        return content(handed(s, h.next, h.len, IN_CONTENT, more_sum(c, h.len), 1));
    }
    None
}

// ---- the end

// Between two frames.
fn tallied(c: Cells) -> u64
    ensures { result ≡ tally_of c.phase c.has c.stated c.sum }
{
    match c.phase {
        OPENING => rules::REQUEST_INCOMPLETE,
        BODY | TRAILED => {
            if c.has == 0 || c.sum == c.stated {
                rules::ACCEPTED
            } else {
                rules::MESSAGE_ERROR
            }
        }
        _ => rules::CLOSED_CRITICAL_STREAM,
    }
}

// Inside a frame.
fn cut_off(phase: u64) -> u64
    ensures { result ≡ cut_of phase }
{
    if TRAILED < phase {
        rules::CLOSED_CRITICAL_STREAM
    } else {
        rules::FRAME_ERROR
    }
}

// The end of a stream: accepted if it is whole, a section is due, or the code. A number, as `eist_end` gives it in C and a host's report has it.
pub fn end(c: Cells) -> u64
    ensures { Ends c result }
{
    match c.mode {
        IN_TYPE if c.due == 0 => tallied(c),
        HEADER_SECTION_DUE | TRAILERS_DUE => rules::SECTION_DUE,
        _ => cut_off(c.phase),
    }
}
