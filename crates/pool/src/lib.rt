// The public calls on a pool of lent bytes. Every call but laying out reads the pool itself first, and serves it if it is sound; a
// refusal changes no byte. None has a precondition: each ends with one of the paper's answers on every pool of bytes, size or
// offset. Each contract is an equation with the paper's own definition (crates/paper/specs/Calls.antt).
#![tactic(auto)]

mod numbers;
mod parts;

ghost use Rattle.std.specs.Prelude.{◌≡◌};
ghost use Rattle.paper.specs.Answers.{out};
ghost use Rattle.pool.specs.Calls as call;

use paper::{Figures, Refusal};

// Lays the buffer out as a fresh pool, in layout 1 or 2; answers its length.
pub fn lay_out(pool: &mut [u8], layout: u32) -> Result<u32, Refusal>
    ensures { call.lay_out pool.old layout ≡ out result pool.new }
{
    let n = pool.len();
    if !reading::allowed(n) {
        return Err(Refusal::NotAllowed);
    }
    let Some(top) = laying::top_of(layout) else {
        return Err(Refusal::NoLayout);
    };
    serving::lay_out(pool, n as u32, top);
    Ok(n as u32)
}

// Whether the pool is sound; answers its length.
pub fn inspect(pool: &[u8]) -> Result<u32, Refusal>
    ensures { result ≡ call.inspect pool.now }
{
    reading::check(pool)?;
    Ok(pool.len() as u32)
}

// Grants a block for a payload of `size` bytes; answers where the payload starts.
pub fn take(pool: &mut [u8], size: u32) -> Result<u32, Refusal>
    ensures { call.take pool.old size ≡ out result pool.new }
{
    reading::check(pool)?;
    serving::take(pool, size)
}

// Takes the block of the payload at `offset` back; answers the payload's bytes.
pub fn give_back(pool: &mut [u8], offset: u32) -> Result<u32, Refusal>
    ensures { call.give_back pool.old offset ≡ out result pool.new }
{
    reading::check(pool)?;
    serving::give_back(pool, offset)
}

// The bytes of the payload at `offset`.
pub fn ask(pool: &[u8], offset: u32) -> Result<u32, Refusal>
    ensures { result ≡ call.ask pool.now offset }
{
    reading::check(pool)?;
    serving::ask(pool, offset)
}

// The bytes of the payload whose offset stands at `place` of the list, 0 where none does. The whole list is asked, at one reading: each of
// its offsets but 0 must be that of a held payload, and stand there once.
pub fn ask_all(pool: &[u8], offsets: &[u32], place: u32) -> Result<u32, Refusal>
    ensures { result ≡ call.ask_all pool.now offsets.now place }
{
    reading::check(pool)?;
    if !serving::all_held(pool, offsets) {
        return Err(Refusal::NotHeld);
    }
    let offset = numbers::number_at(offsets, place);
    if offset == 0 {
        return Ok(0);
    }
    serving::ask(pool, offset)
}

// The payload at `offset`, for reading; the empty part at the pool's end where the call is refused.
pub fn lend(pool: &[u8], offset: u32) -> &[u8]
    ensures { call.Lent result pool.entry offset }
{
    let part = parts::bounds(pool, offset);
    &pool[part]
}

// (Two calls, since a part for reading and one for writing are two types.)
// The payload at `offset`, for writing; the empty part at the pool's end where the call is refused. The pool is read through `&`
// alone before the part is made, so no byte can change. The contract does not say that: the parameter goes into the result.
pub fn lend_mut(pool: &mut [u8], offset: u32) -> &mut [u8]
    ensures { call.LentMut result pool.entry offset }
{
    let part = parts::bounds(pool, offset);
    &mut pool[part]
}

// The seven figures.
pub fn figures(pool: &[u8]) -> Result<Figures, Refusal>
    ensures { result ≡ call.figures pool.now }
{
    reading::check(pool)?;
    Ok(serving::figures(pool))
}

// Fills the 53 counters with the held blocks by size class; answers how many are held.
pub fn class_count(pool: &[u8], counts: &mut [u32]) -> Result<u32, Refusal>
    ensures { call.class_count pool.now counts.old ≡ out result counts.new }
{
    reading::check(pool)?;
    serving::class_count(pool, counts)
}
