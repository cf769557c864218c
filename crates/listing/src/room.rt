// A text in a fixed room: what is put goes behind what is there.
ghost use Rattle.std.specs.Prelude.{◌≤◌};

// The longest line of the lister or of a script's run fits.
const ROOM: usize = 2048;

#[derive(Drop)]
pub struct Text {
    pub room: [u8; ROOM],
    pub length: usize,
    pub ghost fits: { length ≤ 2048 },
}

impl Text {
    ghost use Rattle.std.specs.Prelude.{◌≡◌, ◌+◌, ◌<◌, [], ◌∷◌, length, take};
    ghost use Rattle.listing.specs.Text.{decimal, spaced};
    ghost use Rattle.listing.specs.Put.{Put};
    ghost use Rattle.listing.specs.Grown.{Extends};

    pub fn new() -> Self
        ensures { result.length ≡ 0 }
    {
        Text {
            room: [0; ROOM],
            length: 0,
        }
    }

    // The next text begins at the start of the room.
    pub fn clear(&mut self)
        ensures { (self.new.room ≡ self.old.room) × (self.new.length ≡ 0) }
    {
        self.length = 0;
    }

    pub fn as_bytes(&self) -> &[u8]
        ensures { result.now ≡ take self.now.length self.now.room }
    {
        &self.room[..self.length]
    }

    pub fn put(&mut self, word: &[u8])
        requires { self.old.length + length word.now ≤ 2048 }
        ensures { Extends self.old word.now self.new }
    {
        let end = self.length + word.len();
        self.room[self.length..end].copy_from_slice(word);
        self.length = end;
    }

    // A digit, put into a room, and the place behind it.
    fn digit_at(room: &mut [u8; ROOM], to: usize, digit: u64) -> usize
        requires { (to < 2048) × (digit < 10) }
        ensures { Put room.old to ((48 + digit) ∷ []) room.new result }
    {
        room[to] = b'0' + digit as u8;
        to + 1
    }

    // The place stays a value from digit to digit: as a field of the text, each would load and store it.
    fn decimal_at(room: &mut [u8; ROOM], to: usize, n: u64) -> usize
        requires { to + length (decimal n) ≤ 2048 }
        ensures { Put room.old to (decimal n) room.new result }
    {
        if n < 10 {
            return Self::digit_at(room, to, n);
        }
        let last = Self::decimal_at(room, to, n / 10);
        Self::digit_at(room, last, n % 10)
    }

    pub fn put_decimal(&mut self, n: u64)
        requires { self.old.length + length (decimal n) ≤ 2048 }
        ensures { Extends self.old (decimal n) self.new }
    {
        self.length = Self::decimal_at(&mut self.room, self.length, n);
    }

    // A number and a blank.
    pub fn put_spaced(&mut self, n: u64)
        requires { self.old.length + 21 ≤ 2048 }
        ensures { Extends self.old (spaced n) self.new }
    {
        self.put_decimal(n);
        self.put(b" ");
    }
}
