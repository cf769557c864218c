// What a reader gives, as standard input does, read into lent room.
#![tactic(auto)]

ghost use Rattle.std.specs.Prelude.{length};
ghost use Rattle.input.specs.Came.{Came};

use std::io;
use std::io::Read;

// Reads up to the end of the input or of the room, and says how many bytes came. Where a read fails, what came is not the input.
pub fn read_all<R: Read>(reader: &mut R, room: &mut [u8]) -> io::Result<usize>
    ensures { Came room.old result room.new }
{
    // No iterator: each read says how far the next begins.
    let mut count = 0;
    while count < room.len() {
        let more = reader.read(&mut room[count..])?;
        if more == 0 {
            break;
        }
        count += more;
    }
    Ok(count)
}
