// The piston bank: 32 pistons, each empty or naming one record of a pool. The bank is 32 lent numbers, 0 for an empty piston and else
// where the record's payload starts. Every call reads pool and bank first, refuses in the order 1, 2, 10, 12, 11, 4, and changes nothing
// where it refuses. It stands on the pool's public calls alone, and has no precondition.
// Pool and bank stay two parameters, and an empty piston the number 0, since C lends both so (include/bank.h).
#![tactic(auto)]

mod kinds;
mod naming;
mod recalling;
mod records;

ghost use Rattle.std.specs.Prelude.{◌≡◌};
ghost use Rattle.bank.specs.Calls as call;
ghost use Rattle.bank.specs.Calls.{after};

pub use kinds::{Kind, UnknownKind};
use paper::Refusal;
pub use recalling::{Place, Recalled, ask, find, recall};

// Sets a piston: a new block has the record, then the old one is given back. With no room the old setting stays. Answers n.
pub fn set(
    pool: &mut [u8],
    bank: &mut [u32; 32],
    piston: u32,
    kind: u8,
    body: &[u8],
) -> Result<u32, Refusal>
    ensures { call.set pool.old bank.old piston kind body.now ≡ after result pool.new bank.new }
{
    naming::asked(pool, bank, piston)?;
    records::check(kind, body)?;
    let size = body.len() + 1;
    let offset = pool::take(pool, size as u32)?;
    let from = offset as usize;
    let to = from + size;
    records::write(&mut pool[from..to], kind, body);
    let at = piston as usize;
    let old = bank[at];
    bank[at] = offset;
    release(pool, old);
    Ok(pool.len() as u32)
}

// Clears a piston; one that is empty stays as it is. Answers n.
pub fn clear(pool: &mut [u8], bank: &mut [u32; 32], piston: u32) -> Result<u32, Refusal>
    ensures { call.clear pool.old bank.old piston ≡ after result pool.new bank.new }
{
    naming::asked(pool, bank, piston)?;
    let at = piston as usize;
    let offset = bank[at];
    bank[at] = 0;
    release(pool, offset);
    Ok(pool.len() as u32)
}

// Gives the block of a piston's old setting back, if it had one. It is held, since the bank names it, so its bytes are all that is answered.
fn release(pool: &mut [u8], old: u32)
    ensures { pool.new ≡ call.released pool.old old }
{
    if old != 0 {
        let _ = pool::give_back(pool, old);
    }
}
