// Header sections and trailers (document 01, "Requests"; document 02, Q-1 and Q-2): one walk of a section block's lines collects what the rules ask of them. Of the
// checks that are broken the lowest in document 01's order is the reason.
#![tactic(auto)]

ghost use Rattle.std.specs.Prelude.{◌≡◌, not, ◌||◌, ◌&&◌, [], ◌+◌, ◌<◌, ◌^◌, length, is_some, Err};
ghost use Rattle.rules.specs.Text.{all};
ghost use Rattle.rules.specs.Block.{lines};
ghost use Rattle.rules.specs.Numbers.{code_number};
ghost use Rattle.rules.specs.Named.{code_named, reason_of};
ghost use Rattle.rules.specs.Section.{is_empty, code_of};
ghost use Rattle.fields.specs.Bytes.{is_in};
ghost use Rattle.fields.specs.Walk.{held};
ghost use Rattle.fields.specs.Decimal.{capped};
ghost use Rattle.section.specs.Checks.{reason_at, lower_of, lowest, found};
ghost use Rattle.section.specs.Names.{other_name, one_name, of_seven, of_ten, long_name, name_of};
ghost use Rattle.section.specs.Facts.{pseudo_by, plain_by, length_by, note_by, line_step, facts_of, walked};
ghost use Rattle.section.specs.Judging.{header_row, by_places, is_http, is_path, sends_content, by_request, by_authority, by_trailers};
ghost use Rattle.section.specs.declared.Fault.TheVariants as faults;
ghost use Rattle.section.specs.declared.Name.TheVariants as names;
ghost use Rattle.section.specs.Places.{within, bytes_in};
ghost use Rattle.section.specs.Answer.{header_answer, header_number, trailer_answer};

use fields::{Class, Table, Unreadable};
use rules::codes::{Code, House};
use rules::reasons::Reason;

// ---- reasons

// The code of a refusal.
#[tactic(auto, unfolding(rules::specs::Section::fate_of, rules::specs::Section::code_of))]
pub fn reason_code(reason: Reason) -> Code
    ensures { result ≡ code_named (code_of (reason_of reason)) }
{
    match reason {
        Reason::Connect | Reason::OtherScheme | Reason::LengthPastLimit | Reason::NoLength => {
            Code::RequestRejected
        }
        _ => Code::MessageError,
    }
}

// The numbers of those that are not malformed.
const CONNECT: usize = Reason::Connect as usize;

const OTHER_SCHEME: usize = Reason::OtherScheme as usize;

const LENGTH_PAST_LIMIT: usize = Reason::LengthPastLimit as usize;

const NO_LENGTH: usize = Reason::NoLength as usize;

// The same by the reason's number, as a host is to be told it (document 02, Q-3); any number has an answer.
pub fn code(reason: usize) -> u64
    ensures { result ≡ code_number (code_of (reason_at reason)) }
{
    match reason {
        CONNECT | OTHER_SCHEME | LENGTH_PAST_LIMIT | NO_LENGTH => rules::REQUEST_REJECTED,
        _ => rules::MESSAGE_ERROR,
    }
}

// The lowest broken check, with one more.
fn lower(first: Option<Reason>, check: Reason, broken: bool) -> Option<Reason>
    ensures { result ≡ lower_of first check broken }
{
    if broken && first.is_none_or(|reason| check < reason) {
        Some(check)
    } else {
        first
    }
}

// ---- what a name is to the rules

#[derive(Clone, Copy, Debug, PartialEq, Eq, Drop)]
enum Name {
    Method,
    Scheme,
    Authority,
    Path,
    Host,
    Length,
    Te,
    Connection,
    Unknown,
    Plain,
}

#[tactic(auto, unfolding(crate::specs::Names::other_name))]
fn other_name(name: &[u8]) -> Name
    ensures { result ≡ other_name name.now }
{
    if fields::begins_with(name, b':') {
        Name::Unknown
    } else {
        Name::Plain
    }
}

// The one name of its length.
#[tactic(auto, unfolding(crate::specs::Names::one_name))]
fn one_name(name: &[u8], text: &[u8], is: Name) -> Name
    ensures { result ≡ one_name text.now is name.now }
{
    if fields::same_bytes(name, text) {
        is
    } else {
        other_name(name)
    }
}

#[tactic(auto, unfolding(crate::specs::Names::of_seven, rules::specs::Text::ascii))]
fn of_seven(name: &[u8]) -> Name
    ensures { result ≡ of_seven name.now }
{
    if fields::same_bytes(name, b":method") {
        Name::Method
    } else if fields::same_bytes(name, b":scheme") {
        Name::Scheme
    } else {
        one_name(name, b"upgrade", Name::Connection)
    }
}

#[tactic(auto, unfolding(crate::specs::Names::of_ten, rules::specs::Text::ascii))]
fn of_ten(name: &[u8]) -> Name
    ensures { result ≡ of_ten name.now }
{
    if fields::same_bytes(name, b":authority") {
        Name::Authority
    } else if fields::same_bytes(name, b"connection") {
        Name::Connection
    } else {
        one_name(name, b"keep-alive", Name::Connection)
    }
}

fn long_name(name: &[u8]) -> Name
    ensures { result ≡ long_name name.now }
{
    match name.len() {
        14 => one_name(name, b"content-length", Name::Length),
        16 => one_name(name, b"proxy-connection", Name::Connection),
        17 => one_name(name, b"transfer-encoding", Name::Connection),
        _ => other_name(name),
    }
}

// By its length, and then by the names of that length. A match on the byte strings leaves a goal at each byte of each name, two names 16.
fn name_of(name: &[u8]) -> Name
    ensures { result ≡ name_of name.now }
{
    match name.len() {
        7 => of_seven(name),
        10 => of_ten(name),
        5 => one_name(name, b":path", Name::Path),
        4 => one_name(name, b"host", Name::Host),
        2 => one_name(name, b"te", Name::Te),
        _ => long_name(name),
    }
}

// ---- what one walk of the lines collects

const LARGEST: u64 = 4_611_686_018_427_387_903;

const LENGTH_LIMIT: u64 = 1_048_576;

const SIZE_LIMIT: usize = 16_384;

const ABOVE: usize = 4_611_686_018_427_387_904;

// Where in the block a value begins and ends.
#[derive(Clone, Copy, Debug, PartialEq, Eq)]
pub struct Span {
    pub from: usize,
    pub to: usize,
}

// Of the lines so far: their size, the lowest check that they break by themselves, whether there was a pseudo-field or another; of five names
// where the first line's value is; and the first Content-Length's number.
#[derive(Clone, Copy, Default)]
struct Facts {
    size: usize,
    first: Option<Reason>,
    pseudo: bool,
    plain: bool,
    method: Option<Span>,
    scheme: Option<Span>,
    authority: Option<Span>,
    path: Option<Span>,
    host: Option<Span>,
    stated: Option<u64>,
}

// Empty, or with a byte outside a class.
fn not_all(table: &Table, v: &[u8], class: Class) -> bool
    ensures { result ≡ (is_empty v.now || not (all (is_in class) v.now)) }
{
    v.is_empty() || table.any_outside(v, class)
}

// A size past 2^62 is past the limit.
fn held_below(size: usize) -> usize
    ensures { result ≡ capped size }
{
    size.min(ABOVE)
}

impl Facts {
    // The line of a pseudo-field, with the check that it may break.
    fn pseudo_line(self, check: Reason, broken: bool) -> Facts
        ensures { result ≡ pseudo_by self check broken }
    {
        let first = lower(self.first, check, broken);
        Facts {
            first: lower(first, Reason::LatePseudo, self.plain),
            pseudo: true,
            ..self
        }
    }

    // Another line.
    fn plain_line(self, first: Option<Reason>) -> Facts
        ensures { result ≡ plain_by self first }
    {
        Facts {
            first,
            plain: true,
            ..self
        }
    }

    #[tactic(auto, unfolding(crate::specs::Facts::note_by))]
    fn method_line(self, table: &Table, value: &[u8], span: Span) -> Facts
        ensures { result ≡ note_by names.Method self value.now span }
    {
        let facts = self.pseudo_line(Reason::RepeatedPseudo, self.method.is_some());
        let bad = not_all(table, value, Class::Token);
        Facts {
            first: lower(facts.first, Reason::BadMethod, bad),
            method: self.method.or(Some(span)),
            ..facts
        }
    }

    #[tactic(auto, unfolding(rules::specs::Integers::largest))]
    fn length_line(self, table: &Table, value: &[u8]) -> Facts
        ensures { result ≡ length_by self value.now }
    {
        let number = fields::decimal_of(value);
        let first = lower(self.first, Reason::RepeatedLength, self.stated.is_some());
        let first = lower(first, Reason::NoDigits, not_all(table, value, Class::Digit));
        let first = lower(first, Reason::LengthAbove, LARGEST < number);
        Facts {
            stated: self.stated.or(Some(number)),
            ..self.plain_line(first)
        }
    }

    // What the rules ask of a line of that name. What is there stays.
    #[tactic(auto, unfolding(crate::specs::Facts::note_by, rules::specs::Text::ascii))]
    fn noted(self, table: &Table, name: Name, value: &[u8], span: Span) -> Facts
        ensures { result ≡ note_by name self value.now span }
    {
        match name {
            Name::Method => self.method_line(table, value, span),
            Name::Scheme => Facts {
                scheme: self.scheme.or(Some(span)),
                ..self.pseudo_line(Reason::RepeatedPseudo, self.scheme.is_some())
            },
            Name::Authority => Facts {
                authority: self.authority.or(Some(span)),
                ..self.pseudo_line(Reason::RepeatedPseudo, self.authority.is_some())
            },
            Name::Path => Facts {
                path: self.path.or(Some(span)),
                ..self.pseudo_line(Reason::RepeatedPseudo, self.path.is_some())
            },
            Name::Host => {
                let first = lower(self.first, Reason::RepeatedHost, self.host.is_some());
                Facts {
                    host: self.host.or(Some(span)),
                    ..self.plain_line(first)
                }
            }
            Name::Length => self.length_line(table, value),
            Name::Te => {
                let other = !fields::same_bytes(value, b"trailers");
                self.plain_line(lower(self.first, Reason::OtherTe, other))
            }
            Name::Connection => self.plain_line(lower(self.first, Reason::ConnectionField, true)),
            Name::Unknown => self.pseudo_line(Reason::UnknownPseudo, true),
            Name::Plain => self.plain_line(self.first),
        }
    }

    // A line more.
    #[tactic(auto, unfolding(crate::specs::Facts::line_step))]
    fn with_line(self, table: &Table, name: &[u8], value: &[u8], span: Span) -> Facts
        requires { self.size + (length name.now + length value.now + 32) < 2 ^ 64 }
        ensures { result ≡ line_step self name.now value.now span }
    {
        let size = held_below(self.size + (name.len() + value.len() + 32));
        let facts = self.noted(table, name_of(name), value, span);
        Facts {
            size,
            first: lower(facts.first, Reason::BadBytes, table.bad_line(name, value)),
            ..facts
        }
    }

    // The size, and what must be there.
    fn places_fault(self) -> Option<Reason>
        ensures { result ≡ by_places self }
    {
        let n = lower(self.first, Reason::TooLarge, SIZE_LIMIT < self.size);
        let n = lower(n, Reason::NoMethod, self.method.is_none());
        let two = self.scheme.is_some() && self.path.is_some();
        let n = lower(n, Reason::NoSchemeOrPath, !two);
        lower(
            n,
            Reason::LengthPastLimit,
            LENGTH_LIMIT < self.stated.unwrap_or(0),
        )
    }

    #[tactic(auto, unfolding(crate::specs::Judging::by_trailers, rules::specs::Section::size_limit))]
    fn trailer_fault(self) -> Option<Reason>
        ensures { result ≡ by_trailers self }
    {
        let n = lower(self.first, Reason::TooLarge, SIZE_LIMIT < self.size);
        let n = lower(n, Reason::PseudoInTrailers, self.pseudo);
        lower(n, Reason::LengthInTrailers, self.stated.is_some())
    }
}

// Why a block is no sound section.
#[derive(Clone, Copy, Debug, PartialEq, Eq)]
pub enum Fault {
    Unreadable,
    Refused(Reason),
}

impl Fault {
    // As an answer has it: unreadable, or the code.
    pub fn number(self) -> u64
        ensures { result ≡ header_number (Err self) }
    {
        match self {
            Fault::Unreadable => House::Unreadable.number(),
            Fault::Refused(reason) => reason_code(reason).number(),
        }
    }
}

impl From<Unreadable> for Fault {
    ghost from_gives = { λ _ fault. fault ≡ faults.Unreadable };

    fn from(_unreadable: Unreadable) -> Fault {
        Fault::Unreadable
    }
}

// The one walk of the lines.
fn walk_lines(block: &[u8]) -> Result<Facts, Fault>
    ensures { result ≡ walked (lines block.now) }
{
    let table = fields::classes();
    let mut at = 0;
    let mut facts = Facts::default();
    while let Some(line) = fields::line_at(block, at)? {
        let name = &block[line.name..line.value];
        let value = &block[line.value..line.next];
        let span = Span {
            from: line.value,
            to: line.next,
        };
        facts = facts.with_line(&table, name, value, span);
        at = line.next;
    }
    Ok(facts)
}

// ---- a header section

// The bytes at a place; none where there is no place.
fn value_of(block: &[u8], place: Option<Span>) -> &[u8]
    requires { within block.now place }
    ensures { result.now ≡ bytes_in block.now place }
{
    match place {
        Some(span) => &block[span.from..span.to],
        None => &[],
    }
}

#[tactic(auto, unfolding(crate::specs::Judging::is_http, rules::specs::Text::ascii))]
fn is_http(scheme: &[u8]) -> bool
    ensures { result ≡ is_http scheme.now }
{
    fields::same_bytes(scheme, b"http") || fields::same_bytes(scheme, b"https")
}

// `*` is fine with OPTIONS.
#[tactic(auto, unfolding(crate::specs::Judging::is_path, rules::specs::Text::ascii))]
fn is_path(path: &[u8], method: &[u8]) -> bool
    ensures { result ≡ is_path path.now method.now }
{
    fields::begins_with(path, b'/')
        || (fields::same_bytes(b"*", path) && fields::same_bytes(b"OPTIONS", method))
}

#[tactic(auto, unfolding(crate::specs::Judging::sends_content, rules::specs::Text::ascii))]
fn sends_content(method: &[u8]) -> bool
    ensures { result ≡ sends_content method.now }
{
    fields::same_bytes(method, b"PUT")
        || fields::same_bytes(method, b"POST")
        || fields::same_bytes(method, b"PATCH")
}

// What the method, the scheme and the path say, and whether a length is stated.
#[tactic(auto, unfolding(crate::specs::Judging::by_request, rules::specs::Text::ascii))]
fn request_fault(
    method: &[u8],
    scheme: &[u8],
    path: &[u8],
    stated: bool,
    n: Option<Reason>,
) -> Option<Reason>
    ensures { result ≡ by_request method.now scheme.now path.now stated n }
{
    let n = lower(n, Reason::Connect, fields::same_bytes(b"CONNECT", method));
    let n = lower(n, Reason::OtherScheme, !is_http(scheme));
    let n = lower(n, Reason::BadPath, !is_path(path, method));
    lower(n, Reason::NoLength, sends_content(method) && !stated)
}

// What the authority and the host say.
#[tactic(auto, unfolding(crate::specs::Judging::by_authority))]
fn authority_fault(
    block: &[u8],
    given: Option<Span>,
    hosted: Option<Span>,
    n: Option<Reason>,
) -> Option<Reason>
    requires { within block.now given × within block.now hosted }
    ensures { result ≡ by_authority (bytes_in block.now given) (is_some given) (bytes_in block.now hosted) (is_some hosted) n }
{
    let authority = value_of(block, given);
    let host = value_of(block, hosted);
    let n = lower(n, Reason::NoAuthority, given.is_none() && hosted.is_none());
    let empty = (given.is_some() && authority.is_empty()) || (hosted.is_some() && host.is_empty());
    let n = lower(n, Reason::EmptyAuthority, empty);
    let both = given.is_some() && hosted.is_some();
    let differ = both && !fields::same_bytes(authority, host);
    let n = lower(n, Reason::AuthoritiesDiffer, differ);
    lower(n, Reason::AtInAuthority, fields::has_byte(authority, b'@'))
}

fn header_fault(block: &[u8], facts: Facts) -> Option<Reason>
    requires { facts ≡ facts_of (held block.now) }
    ensures { result ≡ found (lowest (header_row (held block.now))) }
{
    let n = request_fault(
        value_of(block, facts.method),
        value_of(block, facts.scheme),
        value_of(block, facts.path),
        facts.stated.is_some(),
        facts.places_fault(),
    );
    authority_fault(block, facts.authority, facts.host, n)
}

// Where in the block the method is, and the Content-Length that is stated.
#[derive(Clone, Copy, Debug, PartialEq, Eq)]
pub struct Sound {
    pub method: Span,
    pub stated: Option<u64>,
}

pub fn header_section(block: &[u8]) -> Result<Sound, Fault>
    ensures { result ≡ header_answer (lines block.now) }
{
    let facts = walk_lines(block)?;
    match header_fault(block, facts) {
        Some(reason) => Err(Fault::Refused(reason)),
        None => Ok(Sound {
            method: facts.method.unwrap(),
            stated: facts.stated,
        }),
    }
}

// ---- trailers

pub fn trailers(block: &[u8]) -> Result<(), Fault>
    ensures { result ≡ trailer_answer (lines block.now) }
{
    let facts = walk_lines(block)?;
    match facts.trailer_fault() {
        Some(reason) => Err(Fault::Refused(reason)),
        None => Ok(()),
    }
}
