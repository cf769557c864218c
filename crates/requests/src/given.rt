// A section given to a stream (document 01, "Requests"), by value: where the stream goes on, or the number that refuses it: none is due, the block is unreadable, or the code.
ghost use Rattle.std.specs.Prelude.{◌≡◌};
ghost use Rattle.rules.specs.Block.{lines};
ghost use Rattle.section.specs.Answer.{read_stated};
ghost use Rattle.section.specs.Request.{header_of, trailer_of};
ghost use Rattle.requests.specs.Taken.{cells_at, body_cells, headed_as, trailed_as, given_of};

use frames::Cells;

// Between two frames.
fn cells_at(phase: u64, has: u64, stated: u64, sum: u64) -> Cells
    ensures { result ≡ cells_at phase has stated sum }
{
    Cells {
        phase,
        has,
        stated,
        sum,
        ..Cells::default()
    }
}

#[tactic(auto, unfolding(crate::specs::Taken::body_cells, section::specs::Answer::read_stated))]
fn body_cells(stated: Option<u64>) -> Cells
    ensures { result ≡ body_cells (read_stated stated) }
{
    match stated {
        None => cells_at(frames::BODY, 0, 0, 0),
        Some(n) => cells_at(frames::BODY, 1, n, 0),
    }
}

fn give_header(c: Cells, block: &[u8]) -> Result<Cells, u64>
    ensures { result ≡ headed_as c (header_of (lines block.now)) }
{
    match section::header_section(block) {
        Err(fault) => Err(fault.number()),
        Ok(sound) => {
            if c.phase == frames::OPENING {
                Ok(body_cells(sound.stated))
            } else {
                Err(rules::FRAME_UNEXPECTED)
            }
        }
    }
}

fn give_trailers(c: Cells, block: &[u8]) -> Result<Cells, u64>
    ensures { result ≡ trailed_as c (trailer_of (lines block.now)) }
{
    match section::trailers(block) {
        Err(fault) => Err(fault.number()),
        Ok(()) => {
            if c.phase == frames::BODY {
                Ok(cells_at(frames::TRAILED, c.has, c.stated, c.sum))
            } else {
                Err(rules::FRAME_UNEXPECTED)
            }
        }
    }
}

// An Err is a number of rules: the house's own, or the code, as `Reply` has it.
#[tactic(auto, unfolding(crate::specs::Taken::given_of))]
pub fn give(c: Cells, block: &[u8]) -> Result<Cells, u64>
    ensures { result ≡ given_of c block.now }
{
    if frames::TRAILED < c.phase {
        return Err(rules::NO_SECTION);
    }
    match c.mode {
        frames::HEADER_SECTION_DUE => give_header(c, block),
        frames::TRAILERS_DUE => give_trailers(c, block),
        _ => Err(rules::NO_SECTION),
    }
}
