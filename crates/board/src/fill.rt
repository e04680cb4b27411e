// The figures in a lent list of seven numbers.
ghost use Rattle.std.specs.Prelude.{◌≡◌};
ghost use Rattle.paper.specs.Answers.{out};
ghost use Rattle.board.specs.Heard as board;

use paper::{Figures, Refusal};

// The seven figures, in the paper's order; answers the first. Another list than one of seven numbers stays as it is, and is refused
// by its length, as the class count refuses one that has not 53.
fn counted(f: Figures, list: &mut [u32]) -> Result<u32, Refusal>
    ensures { board.counted f list.old ≡ out result list.new }
{
    if list.len() != 7 {
        return Err(Refusal::ListLength);
    }
    list[0] = f.held_blocks;
    list[1] = f.held_bytes;
    list[2] = f.free_small;
    list[3] = f.free_large;
    list[4] = f.remainder;
    list[5] = f.free_word;
    list[6] = f.largest;
    Ok(f.held_blocks)
}

// Refused figures leave the list as it is.
pub fn tallied(t: Result<Figures, Refusal>, list: &mut [u32]) -> Result<u32, Refusal>
    ensures { board.tallied t list.old ≡ out result list.new }
{
    counted(t?, list)
}
