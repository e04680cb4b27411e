// The calls on a pool that is known to be sound: none of them inspects. Each is total, and on a pool that stands for a state it
// gives the paper's answer and leaves a pool that stands for the state after (proofs/).
#![tactic(auto)]

ghost use Rattle.std.specs.Prelude.{◌≡◌};
ghost use Rattle.paper.specs.Answers.{out};
ghost use Rattle.serving.specs.Models as model;

pub use asking::all_held;
pub use grant::take;
pub use laying::lay_out;
use paper::{Found, Refusal};
pub use walk::tally as figures;

// The size of the held block whose payload starts at `offset`, by the block that the offset is in; or the refusal.
fn held_there(found: Found, offset: u32) -> Result<u32, Refusal>
    ensures { result ≡ model.held_there found offset }
{
    let Found::Held(start, size) = found else {
        return Err(Refusal::NotHeld);
    };
    if offset as usize != start as usize + 4 {
        return Err(Refusal::NotHeld);
    }
    Ok(size)
}

// Takes the block of the payload at `offset` back; answers the payload's bytes.
pub fn give_back(pool: &mut [u8], offset: u32) -> Result<u32, Refusal>
    ensures { model.give_back pool.old offset ≡ out result pool.new }
{
    let z = held_there(walk::look_up(pool, offset), offset)?;
    giveback::give_back(pool, words::minus(offset, 4), z);
    Ok(words::minus(z, 4))
}

// The bytes of the payload at `offset`.
pub fn ask(pool: &[u8], offset: u32) -> Result<u32, Refusal>
    ensures { result ≡ model.ask pool.now offset }
{
    let z = held_there(walk::look_up(pool, offset), offset)?;
    Ok(words::minus(z, 4))
}

// Fills the 53 counters with the held blocks by size class; answers how many are held.
pub fn class_count(pool: &[u8], counts: &mut [u32]) -> Result<u32, Refusal>
    ensures { model.class_count pool.now counts.old ≡ out result counts.new }
{
    if counts.len() != 53 {
        return Err(Refusal::ListLength);
    }
    Ok(walk::count_classes(pool, counts))
}
