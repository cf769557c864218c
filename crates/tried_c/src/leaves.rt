// The leaves for a tester in another language (tests/leaves): each answer as numbers, and no logic of its own.
ghost use Rattle.std.specs.Prelude.{◌≡◌, length, drop};
ghost use Rattle.rules.specs.Integers.{integer};
ghost use Rattle.rules.specs.Control.{settings_of};
ghost use Rattle.rules.specs.Writer.{write_integer, write_header, write_integer_frame, write_opening, write_goaway};
ghost use Rattle.rules.specs.Block.{lines};
ghost use Rattle.section.specs.Answer.{header_answer, header_number, trailer_answer, trailer_number};
ghost use Rattle.varint.specs.Write.{answer_of};
ghost use Rattle.meaning.specs.NumberLaws.{numbered};
ghost use Rattle.tried_c.specs.LeafNumbers.{settings_number, settings_out, read_number, read_out, header_out, wrote_number, wrote_out, given, Written};

use rules::codes::House;
use varint::Whole;
use wire::ids::StreamId;

// ---- SETTINGS

// 0, or the code of a SETTINGS payload. out, where it is 0: whether 6 is there, 6, 1, 7.
#[unsafe(no_mangle)]
pub extern "C" fn eist_settings(payload: &[u8], out: &mut [u64; 4]) -> u64
    ensures value { result ≡ settings_number (numbered (settings_of payload.now)) }
    ensures out_after { out.new ≡ settings_out (numbered (settings_of payload.now)) out.old }
{
    match control::settings::judge(payload) {
        Err(code) => code.number(),
        Ok(s) => {
            out[0] = u64::from(s.size.is_some());
            out[1] = s.size.unwrap_or(0);
            out[2] = s.capacity;
            out[3] = s.blocked;
            0
        }
    }
}

// ---- integers

// 1 where an integer is whole at `at`, with its value and the place behind it in out; else 0.
#[unsafe(no_mangle)]
pub extern "C" fn eist_read(bytes: &[u8], at: usize, out: &mut [u64; 2]) -> u64
    ensures value { result ≡ read_number (integer at (drop at bytes.now)) }
    ensures out_after { out.new ≡ read_out (integer at (drop at bytes.now)) out.old }
{
    match varint::read(bytes, at) {
        None => 0,
        Some(Whole { value, next }) => {
            out[0] = value;
            out[1] = next as u64;
            1
        }
    }
}

// ---- sections

// 0, 6, or the code of a header section. out, where it is 0: whether a Content-Length is stated, which, and where the method begins and ends.
#[unsafe(no_mangle)]
pub extern "C" fn eist_header_section(block: &[u8], out: &mut [u64; 4]) -> u64
    ensures value { result ≡ header_number (header_answer (lines block.now)) }
    ensures out_after { out.new ≡ header_out (header_answer (lines block.now)) out.old }
{
    match section::header_section(block) {
        Err(fault) => fault.number(),
        Ok(sound) => {
            out[0] = u64::from(sound.stated.is_some());
            out[1] = sound.stated.unwrap_or(0);
            out[2] = sound.method.from as u64;
            out[3] = sound.method.to as u64;
            0
        }
    }
}

// 0, 6, or the code of trailers.
#[unsafe(no_mangle)]
pub extern "C" fn eist_trailers(block: &[u8]) -> u64
    ensures { result ≡ trailer_number (trailer_answer (lines block.now)) }
{
    match section::trailers(block) {
        Err(fault) => fault.number(),
        Ok(()) => 0,
    }
}

// ---- the writer: 0, 7 or 8. out, where it is 0: how many bytes were written.

fn told(w: Result<usize, House>, out: &mut [u64; 1]) -> u64
    ensures value { result ≡ wrote_number (answer_of w) }
    ensures out_after { out.new ≡ wrote_out (answer_of w) out.old }
{
    match w {
        Err(refusal) => refusal.number(),
        Ok(n) => {
            out[0] = n as u64;
            0
        }
    }
}

#[unsafe(no_mangle)]
pub extern "C" fn eist_write_integer(value: u64, room: &mut [u8], out: &mut [u64; 1]) -> u64
    ensures { Written (write_integer (length room.old) value) room.old out.old result room.new out.new }
{
    told(varint::write(value, room), out)
}

#[unsafe(no_mangle)]
pub extern "C" fn eist_write_header(
    ftype: u64,
    len: u64,
    room: &mut [u8],
    out: &mut [u64; 1],
) -> u64
    ensures { Written (write_header (length room.old) ftype len) room.old out.old result room.new out.new }
{
    told(wire::write_header(ftype, len, room), out)
}

#[unsafe(no_mangle)]
pub extern "C" fn eist_write_integer_frame(
    ftype: u64,
    value: u64,
    room: &mut [u8],
    out: &mut [u64; 1],
) -> u64
    ensures { Written (write_integer_frame (length room.old) ftype value) room.old out.old result room.new out.new }
{
    told(wire::write_integer_frame(ftype, value, room), out)
}

#[unsafe(no_mangle)]
pub extern "C" fn eist_write_opening(room: &mut [u8], out: &mut [u64; 1]) -> u64
    ensures { Written (write_opening (length room.old)) room.old out.old result room.new out.new }
{
    told(wire::write_opening(room), out)
}

// sent: whether a GOAWAY was sent before, and up to which ID.
#[unsafe(no_mangle)]
pub extern "C" fn eist_write_goaway(
    sent: bool,
    up: u64,
    id: u64,
    room: &mut [u8],
    out: &mut [u64; 1],
) -> u64
    ensures { Written (write_goaway (given sent up) (length room.old) id) room.old out.old result room.new out.new }
{
    let sent = sent.then_some(StreamId(up));
    told(wire::write_goaway(sent, StreamId(id), room), out)
}
