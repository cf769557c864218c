// The frame writer (document 01, "The writer and the lister"): one frame header, one integer frame, our control opening, our GOAWAY.
// BadValue comes before RoomShort, and all is tested before the first byte is stored.
#![tactic(auto)]

pub mod ids;

ghost use Rattle.std.specs.Prelude.{◌≡◌, length};
ghost use Rattle.rules.specs.Writer.{write_header, write_integer_frame, write_opening, write_goaway, bad_goaway};
ghost use Rattle.varint.specs.Write.{Meets};
ghost use Rattle.wire.specs.Goaway.{sent_of};

use ids::StreamId;
use rules::codes::House;

// One frame header. It reads back (meaning, WriterLaws, header_back).
pub fn write_header(ftype: u64, len: u64, room: &mut [u8]) -> Result<usize, House>
    ensures { Meets (write_header (length room.old) ftype len) room.old result room.new }
{
    let a = varint::size(ftype).ok_or(House::BadValue)?;
    let b = varint::size(len).ok_or(House::BadValue)?;
    let n = a + b;
    if room.len() < n {
        return Err(House::RoomShort);
    }
    varint::put(ftype, room, 0);
    varint::put(len, room, a);
    Ok(n)
}

// A frame whose payload is one integer: the length of that payload takes one byte. It reads back (WriterLaws, integer_frame_back).
// Inlined: a call takes a quarter more instructions, to hand its answer on.
#[inline(always)]
pub fn write_integer_frame(ftype: u64, value: u64, room: &mut [u8]) -> Result<usize, House>
    ensures { Meets (write_integer_frame (length room.old) ftype value) room.old result room.new }
{
    let a = varint::size(ftype).ok_or(House::BadValue)?;
    let p = varint::size(value).ok_or(House::BadValue)?;
    let n = a + 1 + p;
    if room.len() < n {
        return Err(House::RoomShort);
    }
    varint::put(ftype, room, 0);
    varint::put(p as u64, room, a);
    varint::put(value, room, a + 1);
    Ok(n)
}

// 00 04 09 01 00 06 80 00 40 00 07 00: our control stream's type, then SETTINGS with 1: 0, 6: 16,384, 7: 0.
const OPENING: [u8; 12] = [0, 4, 9, 1, 0, 6, 0x80, 0, 0x40, 0, 7, 0];

// It reads back (WriterLaws, opening_back).
pub fn write_opening(room: &mut [u8]) -> Result<usize, House>
    ensures { Meets (write_opening (length room.old)) room.old result room.new }
{
    let n = OPENING.len();
    if room.len() < n {
        return Err(House::RoomShort);
    }
    room[..n].copy_from_slice(&OPENING);
    Ok(n)
}

// The frame type of GOAWAY.
const GOAWAY: u64 = 7;

// Our GOAWAY takes a multiple of 4 below 2^62, no higher than one already sent.
#[tactic(auto, unfolding(rules::specs::Writer::bad_goaway, rules::specs::Writer::is_higher, rules::specs::Integers::largest, crate::specs::Goaway::sent_of))]
fn bad_goaway(sent: Option<StreamId>, id: StreamId) -> bool
    ensures { result ≡ bad_goaway (sent_of sent) id.0 }
{
    !ids::is_request(id) || varint::LARGEST < id.0 || sent.is_some_and(|up| up < id)
}

// sent: the ID of the one that we sent before. It reads back (WriterLaws, goaway_back).
pub fn write_goaway(sent: Option<StreamId>, id: StreamId, room: &mut [u8]) -> Result<usize, House>
    ensures { Meets (write_goaway (sent_of sent) (length room.old) id.0) room.old result room.new }
{
    if bad_goaway(sent, id) {
        return Err(House::BadValue);
    }
    write_integer_frame(GOAWAY, id.0, room)
}
