// The script of `replay`: a call a line, its words separated by one space; numbers in decimal, bytes in hexadecimal.
#![tactic(auto)]

ghost use Rattle.std.specs.Prelude.{◌≡◌, ◌+◌, ◌≤◌, length, IfSome};
ghost use Rattle.script.specs.Words.{DigitIs, HalfIs, NumberAt, BytesAt, ValuesAt, verb_of, Behind, LineAt};

// ---- words

// What a word means, and where it ends.
#[derive(Clone, Copy, Debug, PartialEq, Eq)]
struct Word<T> {
    value: T,
    next: usize,
}

// What a decimal digit means.
fn digit(b: u8) -> Option<u8>
    ensures { DigitIs b result }
{
    match b {
        b'0'..=b'9' => Some(b - b'0'),
        _ => None,
    }
}

// What a hexadecimal digit means.
fn half(b: u8) -> Option<u8>
    ensures { HalfIs b result }
{
    match b {
        b'0'..=b'9' => Some(b - b'0'),
        b'a'..=b'f' => Some(b - b'a' + 10),
        _ => None,
    }
}

// The number at a place: every digit that is there. None has a leading zero, or is above 2^64-1.
fn number_at(s: &[u8], at: usize) -> Option<Word<u64>>
    ensures { NumberAt s.now at result }
{
    let first = digit(*s.get(at)?)?;
    let mut value = u64::from(first);
    if first == 0 {
        return Some(Word {
            value,
            next: at + 1,
        });
    }
    for (i, b) in s[at + 1..].iter().enumerate() {
        let Some(more) = digit(*b) else {
            return Some(Word {
                value,
                next: at + 1 + i,
            });
        };
        value = value.checked_mul(10)?.checked_add(u64::from(more))?;
    }
    Some(Word {
        value,
        next: s.len(),
    })
}

// How many bytes are at a place, two digits each, stored from the start of the room on; `-` for none.
fn bytes_at(s: &[u8], at: usize, room: &mut [u8]) -> Option<Word<usize>>
    ensures { BytesAt s.now at room.old result room.new }
{
    if *s.get(at)? == b'-' {
        return Some(Word {
            value: 0,
            next: at + 1,
        });
    }
    let mut count = 0;
    let mut next = at;
    // No chain: it takes two bytes and stores one, and stops at three things.
    while next < s.len() {
        let Some(high) = half(s[next]) else {
            break;
        };
        let low = half(*s.get(next + 1)?)?;
        if room.len() <= count {
            return None;
        }
        room[count] = 16 * high + low;
        count += 1;
        next += 2;
    }
    if count == 0 {
        return None;
    }
    Some(Word { value: count, next })
}

// ---- a line

// The place behind a blank.
fn behind_blank(s: &[u8], at: usize) -> Option<usize>
    ensures { Behind s.now at result }
{
    (*s.get(at)? == b' ').then_some(at + 1)
}

// Up to three numbers, each behind a blank.
fn values_at(s: &[u8], at: usize, count: usize) -> Option<Word<[u64; 3]>>
    requires { at ≤ length s.now }
    ensures { ValuesAt s.now at result }
{
    let mut value = [0; 3];
    let mut next = at;
    for slot in value.iter_mut().take(count) {
        let word = number_at(s, behind_blank(s, next)?)?;
        *slot = word.value;
        next = word.next;
    }
    Some(Word { value, next })
}

// What is written into a buffer.
#[derive(Clone, Copy, Debug, PartialEq, Eq)]
pub enum Writing {
    Header,
    IntegerFrame,
    Integer,
    Opening,
}

// What a line asks for: a call, a state or an integer to be shown, or a write into a buffer.
#[derive(Clone, Copy, Debug, PartialEq, Eq)]
pub enum Verb {
    Start,
    Open,
    Feed,
    Give,
    End,
    Reset,
    State,
    Value,
    Goaway,
    Write(Writing),
}

impl Verb {
    // The verb that a letter means.
    fn of(letter: u8) -> Option<Verb>
        ensures { result ≡ verb_of letter }
    {
        match letter {
            b'S' => Some(Verb::Start),
            b'O' => Some(Verb::Open),
            b'F' => Some(Verb::Feed),
            b'H' => Some(Verb::Give),
            b'E' => Some(Verb::End),
            b'R' => Some(Verb::Reset),
            b'D' => Some(Verb::State),
            b'V' => Some(Verb::Value),
            b'G' => Some(Verb::Goaway),
            b'W' => Some(Verb::Write(Writing::Header)),
            b'I' => Some(Verb::Write(Writing::IntegerFrame)),
            b'N' => Some(Verb::Write(Writing::Integer)),
            b'C' => Some(Verb::Write(Writing::Opening)),
            _ => None,
        }
    }

    // How many numbers come behind the letter.
    fn numbers(self) -> usize {
        match self {
            Verb::Start | Verb::State | Verb::Value => 0,
            Verb::Open | Verb::Give | Verb::End | Verb::Reset | Verb::Write(Writing::Opening) => 1,
            Verb::Feed | Verb::Goaway | Verb::Write(Writing::Integer) => 2,
            Verb::Write(Writing::Header | Writing::IntegerFrame) => 3,
        }
    }

    // Whether bytes come behind the numbers.
    fn has_bytes(self) -> bool {
        matches!(self, Verb::Feed | Verb::Give | Verb::Value)
    }

    // Whether the last number is the size of a buffer, at most 64.
    fn has_room(self) -> bool {
        matches!(self, Verb::Goaway | Verb::Write(_))
    }

    // Whether the call is lent a row.
    fn has_row(self) -> bool {
        matches!(
            self,
            Verb::Start | Verb::Open | Verb::Feed | Verb::Give | Verb::End | Verb::Reset
        )
    }
}

// What a line holds. row: how many free records are lent in place of the kept row. a and b: its first numbers. room: the size of a buffer.
// count: how many bytes are at the start of the scratch room. next: where the next line begins.
#[derive(Clone, Copy, Debug, PartialEq, Eq)]
pub struct Line {
    pub verb: Verb,
    pub row: Option<u64>,
    pub a: u64,
    pub b: u64,
    pub room: usize,
    pub count: usize,
    pub next: usize,
}

// The place behind a line's end.
fn behind_end(s: &[u8], at: usize) -> Option<usize>
    requires { at ≤ length s.now }
    ensures { IfSome result (λ next. next ≡ at + 1) }
{
    match s.get(at) {
        None | Some(b'\n') => Some(at + 1),
        Some(_) => None,
    }
}

// The call at a place, up to the line's end.
fn call(s: &[u8], at: usize, row: Option<u64>, scratch: &mut [u8]) -> Option<Line>
    requires { IfSome row (λ n. n ≤ 32) }
    ensures { LineAt at scratch.old result scratch.new }
{
    let verb = Verb::of(*s.get(at)?)?;
    let count = verb.numbers();
    let numbers = values_at(s, at + 1, count)?;
    let [a, b, last] = numbers.value;
    let room = if verb.has_room() {
        match count {
            1 => a,
            2 => b,
            _ => last,
        }
    } else {
        0
    };
    if 64 < room {
        return None;
    }
    let bytes = if verb.has_bytes() {
        bytes_at(s, behind_blank(s, numbers.next)?, scratch)?
    } else {
        Word {
            value: 0,
            next: numbers.next,
        }
    };
    Some(Line {
        verb,
        row,
        a,
        b,
        room: room as usize,
        count: bytes.value,
        next: behind_end(s, bytes.next)?,
    })
}

// The same, lent a row of n free records, n from 0 to 32 and not 24.
fn lent(s: &[u8], at: usize, n: u64, scratch: &mut [u8]) -> Option<Line>
    ensures { LineAt at scratch.old result scratch.new }
{
    if 32 < n || n == 24 {
        return None;
    }
    let line = call(s, behind_blank(s, at)?, Some(n), scratch)?;
    line.verb.has_row().then_some(line)
}

// The line at a place.
pub fn line_at(s: &[u8], at: usize, scratch: &mut [u8]) -> Option<Line>
    ensures { LineAt at scratch.old result scratch.new }
{
    if *s.get(at)? != b'L' {
        return call(s, at, None, scratch);
    }
    let free = number_at(s, behind_blank(s, at + 1)?)?;
    lent(s, free.next, free.value, scratch)
}
