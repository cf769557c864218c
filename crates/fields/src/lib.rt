// The bytes of field names and values (RFC 9110), and the section block that a HEADERS payload decodes to.
#![tactic(auto)]

ghost use Rattle.std.specs.Prelude.{◌≡◌, ◌||◌, ◌+◌, ◌*◌, ◌-◌, ◌<◌, ◌≤◌, ◌^◌, T, eqb, length, get_or};
ghost use Rattle.rules.specs.Text.{any, same};
ghost use Rattle.rules.specs.Classes.{is_blank, is_capital};
ghost use Rattle.rules.specs.Block.{little};
ghost use Rattle.rules.specs.Section.{begins, decimal};
ghost use Rattle.fields.specs.Bytes.{is_in, outside, mask_of, bad_name_bytes, bad_value_bytes};
ghost use Rattle.fields.specs.Spots.{spot_of, first_out, name_spot_at, value_spot_at, line_spot_at};
ghost use Rattle.fields.specs.Table.{marked, all_right};
ghost use Rattle.fields.specs.Walk.{record_at};
ghost use Rattle.fields.specs.Decimal.{capped};

// What a byte may be. A byte can be several of these.
#[derive(Clone, Copy, Debug, PartialEq, Eq)]
pub enum Class {
    Name,
    Token,
    Value,
    Digit,
}

// The classes of each byte: 1 for a name's, 2 for a token's, 4 for a value's, 8 for a digit.
const CLASSES: [u8; 256] = [
    0, // 00
    0, // 01
    0, // 02
    0, // 03
    0, // 04
    0, // 05
    0, // 06
    0, // 07
    0, // 08
    4, // 09
    0, // 0A
    0, // 0B
    0, // 0C
    0, // 0D
    0, // 0E
    0, // 0F
    0, // 10
    0, // 11
    0, // 12
    0, // 13
    0, // 14
    0, // 15
    0, // 16
    0, // 17
    0, // 18
    0, // 19
    0, // 1A
    0, // 1B
    0, // 1C
    0, // 1D
    0, // 1E
    0, // 1F
    4, // 20
    7, // 21 !
    4, // 22 "
    7, // 23 #
    7, // 24 $
    7, // 25 %
    7, // 26 &
    7, // 27 '
    4, // 28 (
    4, // 29 )
    7, // 2A *
    7, // 2B +
    4, // 2C ,
    7, // 2D -
    7, // 2E .
    4, // 2F /
    15, // 30 0
    15, // 31 1
    15, // 32 2
    15, // 33 3
    15, // 34 4
    15, // 35 5
    15, // 36 6
    15, // 37 7
    15, // 38 8
    15, // 39 9
    4, // 3A :
    4, // 3B ;
    4, // 3C <
    4, // 3D =
    4, // 3E >
    4, // 3F ?
    4, // 40 @
    6, // 41 A
    6, // 42 B
    6, // 43 C
    6, // 44 D
    6, // 45 E
    6, // 46 F
    6, // 47 G
    6, // 48 H
    6, // 49 I
    6, // 4A J
    6, // 4B K
    6, // 4C L
    6, // 4D M
    6, // 4E N
    6, // 4F O
    6, // 50 P
    6, // 51 Q
    6, // 52 R
    6, // 53 S
    6, // 54 T
    6, // 55 U
    6, // 56 V
    6, // 57 W
    6, // 58 X
    6, // 59 Y
    6, // 5A Z
    4, // 5B [
    4, // 5C \
    4, // 5D ]
    7, // 5E ^
    7, // 5F _
    7, // 60 `
    7, // 61 a
    7, // 62 b
    7, // 63 c
    7, // 64 d
    7, // 65 e
    7, // 66 f
    7, // 67 g
    7, // 68 h
    7, // 69 i
    7, // 6A j
    7, // 6B k
    7, // 6C l
    7, // 6D m
    7, // 6E n
    7, // 6F o
    7, // 70 p
    7, // 71 q
    7, // 72 r
    7, // 73 s
    7, // 74 t
    7, // 75 u
    7, // 76 v
    7, // 77 w
    7, // 78 x
    7, // 79 y
    7, // 7A z
    4, // 7B {
    7, // 7C |
    4, // 7D }
    7, // 7E ~
    0, // 7F
    4, // 80
    4, // 81
    4, // 82
    4, // 83
    4, // 84
    4, // 85
    4, // 86
    4, // 87
    4, // 88
    4, // 89
    4, // 8A
    4, // 8B
    4, // 8C
    4, // 8D
    4, // 8E
    4, // 8F
    4, // 90
    4, // 91
    4, // 92
    4, // 93
    4, // 94
    4, // 95
    4, // 96
    4, // 97
    4, // 98
    4, // 99
    4, // 9A
    4, // 9B
    4, // 9C
    4, // 9D
    4, // 9E
    4, // 9F
    4, // A0
    4, // A1
    4, // A2
    4, // A3
    4, // A4
    4, // A5
    4, // A6
    4, // A7
    4, // A8
    4, // A9
    4, // AA
    4, // AB
    4, // AC
    4, // AD
    4, // AE
    4, // AF
    4, // B0
    4, // B1
    4, // B2
    4, // B3
    4, // B4
    4, // B5
    4, // B6
    4, // B7
    4, // B8
    4, // B9
    4, // BA
    4, // BB
    4, // BC
    4, // BD
    4, // BE
    4, // BF
    4, // C0
    4, // C1
    4, // C2
    4, // C3
    4, // C4
    4, // C5
    4, // C6
    4, // C7
    4, // C8
    4, // C9
    4, // CA
    4, // CB
    4, // CC
    4, // CD
    4, // CE
    4, // CF
    4, // D0
    4, // D1
    4, // D2
    4, // D3
    4, // D4
    4, // D5
    4, // D6
    4, // D7
    4, // D8
    4, // D9
    4, // DA
    4, // DB
    4, // DC
    4, // DD
    4, // DE
    4, // DF
    4, // E0
    4, // E1
    4, // E2
    4, // E3
    4, // E4
    4, // E5
    4, // E6
    4, // E7
    4, // E8
    4, // E9
    4, // EA
    4, // EB
    4, // EC
    4, // ED
    4, // EE
    4, // EF
    4, // F0
    4, // F1
    4, // F2
    4, // F3
    4, // F4
    4, // F5
    4, // F6
    4, // F7
    4, // F8
    4, // F9
    4, // FA
    4, // FB
    4, // FC
    4, // FD
    4, // FE
    4, // FF
];

// The table, read once for a whole walk.
#[derive(Clone, Copy)]
pub struct Table {
    pub entries: [u8; 256],
    pub ghost right: { T (all_right entries) },
}

pub fn classes() -> Table {
    Table { entries: CLASSES }
}

impl Class {
    fn mask(self) -> u8
        ensures { result ≡ mask_of self }
    {
        match self {
            Class::Name => 1,
            Class::Token => 2,
            Class::Value => 4,
            Class::Digit => 8,
        }
    }
}

// What a byte's entry says of a class.
fn has_class(entry: u8, class: Class) -> bool
    ensures { result ≡ marked entry class }
{
    entry & class.mask() != 0
}

pub fn has_byte(v: &[u8], b: u8) -> bool
    ensures { result ≡ any (eqb b) v.now }
{
    v.contains(&b)
}

pub fn begins_with(v: &[u8], b: u8) -> bool
    ensures { result ≡ begins (eqb b) v.now }
{
    v.first() == Some(&b)
}

// Not `a == b`, which calls a function of std for a text of more than four bytes: 93 instructions more in a section of seven lines.
pub fn same_bytes(a: &[u8], b: &[u8]) -> bool
    ensures { result ≡ same a.now b.now }
{
    a.len() == b.len() && a.iter().zip(b).all(|(x, y)| x == y)
}

fn blank(b: u8) -> bool
    ensures { result ≡ is_blank b }
{
    b == b' ' || b == b'\t'
}

// Which of the rules of names and values a line's bytes break, and the place in the block of the byte that does (document 02, Q-3).
#[derive(Clone, Copy, Debug, PartialEq, Eq)]
pub enum Spot {
    EmptyName(usize),
    Capital(usize),
    BadInName(usize),
    BadInValue(usize),
    BlankAtEnd(usize),
}

impl Table {
    // The first byte outside a class.
    fn first_outside(&self, v: &[u8], class: Class) -> Option<usize>
        ensures { result ≡ first_out (is_in class) v.now }
    {
        v.iter()
            .position(|&b| !has_class(self.entries[b as usize], class))
    }

    // Some byte is outside a class. The table is the caller's, who reads it once for many names and values.
    pub fn any_outside(&self, v: &[u8], class: Class) -> bool
        ensures { result ≡ any (outside class) v.now }
    {
        self.first_outside(v, class).is_some()
    }

    // A name whose record begins at a place of the block: empty, it is told there; with a colon first it is left to the section's rules.
    fn name_spot(&self, name: &[u8], at: usize) -> Option<Spot>
        requires { at + 6 + length name.now < 2 ^ 64 }
        ensures { spot_of result ≡ name_spot_at at name.now }
    {
        if begins_with(name, b':') {
            return None;
        }
        if name.is_empty() {
            return Some(Spot::EmptyName(at));
        }
        let i = self.first_outside(name, Class::Name)?;
        if is_capital(name[i]) {
            return Some(Spot::Capital(at + 6 + i));
        }
        Some(Spot::BadInName(at + 6 + i))
    }

    // A value from a place of the block on: the lowest of a blank first byte, a byte that no value holds, a blank last byte.
    fn value_spot(&self, value: &[u8], from: usize) -> Option<Spot>
        requires { from + length value.now < 2 ^ 64 }
        ensures { spot_of result ≡ value_spot_at from value.now }
    {
        if value.is_empty() {
            return None;
        }
        if blank(value[0]) {
            return Some(Spot::BlankAtEnd(from));
        }
        if let Some(i) = self.first_outside(value, Class::Value) {
            return Some(Spot::BadInValue(from + i));
        }
        let last = value.len() - 1;
        if blank(value[last]) {
            return Some(Spot::BlankAtEnd(from + last));
        }
        None
    }

    // The name and value check of a line whose record begins at a place of the block.
    pub fn line_spot(&self, name: &[u8], value: &[u8], at: usize) -> Option<Spot>
        requires { at + 6 + (length name.now + length value.now) < 2 ^ 64 }
        ensures { spot_of result ≡ line_spot_at at name.now value.now }
    {
        match self.name_spot(name, at) {
            None => self.value_spot(value, at + 6 + name.len()),
            found => found,
        }
    }

    // Whether a line's bytes break one of them.
    pub fn bad_line(&self, name: &[u8], value: &[u8]) -> bool
        requires { 6 + (length name.now + length value.now) < 2 ^ 64 }
        ensures { result ≡ (bad_name_bytes name.now || bad_value_bytes value.now) }
    {
        self.line_spot(name, value, 0).is_some()
    }
}

fn is_capital(b: u8) -> bool
    ensures { result ≡ is_capital b }
{
    b.is_ascii_uppercase()
}

// Stands for every number above 2^62-1, so that a long row of digits never overflows.
const ABOVE: u64 = 4_611_686_018_427_387_904;

fn with_digit(total: u64, b: u8) -> u64
    ensures { result ≡ capped (total * 10 + (b - 0x30)) }
{
    // Past the limit it stays there: of a long row of digits few are multiplied.
    if ABOVE / 10 < total {
        return ABOVE;
    }
    (total * 10 + u64::from(b.saturating_sub(b'0'))).min(ABOVE)
}

pub fn decimal_of(v: &[u8]) -> u64
    ensures { result ≡ capped (decimal v.now) }
{
    v.iter().fold(0, |total, &b| with_digit(total, b))
}

// A field line of a block: where its name, its value and the next record begin.
#[derive(Clone, Copy, Debug, PartialEq, Eq)]
pub struct Line {
    pub name: usize,
    pub value: usize,
    pub next: usize,
}

// The bytes at a place of a block are no record of a field line.
#[derive(Clone, Copy, Debug, PartialEq, Eq)]
pub struct Unreadable;

// The one kind of record.
const FIELD_LINE: usize = 1;

fn number_at(block: &[u8], at: usize) -> usize
    requires { at + 1 < length block.now }
    ensures { result ≡ little (get_or block.now at 0) (get_or block.now (at + 1) 0) }
{
    u16::from_le_bytes([block[at], block[at + 1]]) as usize
}

// The record at a place of a block, none at the block's end: the length of what follows, the kind, the name's length, name, value.
pub fn line_at(block: &[u8], at: usize) -> Result<Option<Line>, Unreadable>
    ensures { result ≡ record_at block.now at }
{
    if block.len() <= at {
        return Ok(None);
    }
    let left = block.len() - at;
    if left < 6 {
        return Err(Unreadable);
    }
    let len = number_at(block, at);
    let kind = number_at(block, at + 2);
    let named = number_at(block, at + 4);
    if len < 4 || left - 2 < len || kind != FIELD_LINE || len - 4 < named {
        return Err(Unreadable);
    }
    Ok(Some(Line {
        name: at + 6,
        value: at + 6 + named,
        next: at + 2 + len,
    }))
}
