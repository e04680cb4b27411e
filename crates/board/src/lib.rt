// The public calls as C has them: crate pool's own, `convert` and `bring_in`, each of which answers one number of 64 bits, with the refusal's number
// in its upper half and the value in its lower half. A slice is a pointer and a length in C (include/pool.h). None has a precondition, and
// each contract is an equation with the call's own definition. `pistons` has the piston bank's, with the bank's definitions.
#![tactic(auto)]

mod fill;
mod halves;
mod pistons;

ghost use Rattle.std.specs.Prelude.{◌≡◌};
ghost use Rattle.bringing.specs.BringingIn as bringing;
ghost use Rattle.convert.specs.Converting as converting;
ghost use Rattle.pool.specs.Calls as call;
ghost use Rattle.board.specs.Heard as board;
ghost use Rattle.board.specs.Heard.{halves, heard, left, leaves};

pub use pistons::{bank_clear, bank_recall, bank_set};

// Lays the buffer out as a fresh pool, in layout 1 or 2; answers its length.
pub fn pool_lay_out(pool: &mut [u8], layout: u32) -> u64
    ensures { leaves (call.lay_out pool.old layout) ≡ left (halves result) pool.new }
{
    halves::of(pool::lay_out(pool, layout))
}

// Moves the pool from the layout `old` to the other one; answers its length.
pub fn pool_convert(pool: &mut [u8], old: u32) -> u64
    ensures { leaves (converting.convert pool.old old) ≡ left (halves result) pool.new }
{
    halves::of(convert::convert(pool, old))
}

// Brings in a pool that was stored under the rule before 2026-06; answers how many blocks went home.
pub fn pool_bring_in(pool: &mut [u8]) -> u64
    ensures { leaves (bringing.bring_in pool.old) ≡ left (halves result) pool.new }
{
    halves::of(bringing::bring_in(pool))
}

// Whether the pool is sound; answers its length.
pub fn pool_inspect(pool: &[u8]) -> u64
    ensures { heard (call.inspect pool.now) ≡ halves result }
{
    halves::of(pool::inspect(pool))
}

// Grants a block for a payload of `size` bytes; answers where the payload starts.
pub fn pool_take(pool: &mut [u8], size: u32) -> u64
    ensures { leaves (call.take pool.old size) ≡ left (halves result) pool.new }
{
    halves::of(pool::take(pool, size))
}

// Takes the block of the payload at `offset` back; answers the payload's bytes.
pub fn pool_give_back(pool: &mut [u8], offset: u32) -> u64
    ensures { leaves (call.give_back pool.old offset) ≡ left (halves result) pool.new }
{
    halves::of(pool::give_back(pool, offset))
}

// The bytes of the payload at `offset`.
pub fn pool_ask(pool: &[u8], offset: u32) -> u64
    ensures { heard (call.ask pool.now offset) ≡ halves result }
{
    halves::of(pool::ask(pool, offset))
}

// Fills the list with the seven figures; answers the first, how many blocks are held.
pub fn pool_figures(pool: &[u8], figures: &mut [u32]) -> u64
    ensures { leaves (board.figures pool.now figures.old) ≡ left (halves result) figures.new }
{
    halves::of(fill::tallied(pool::figures(pool), figures))
}

// Fills the 53 counters with the held blocks by size class; answers how many are held.
pub fn pool_class_count(pool: &[u8], counts: &mut [u32]) -> u64
    ensures { leaves (call.class_count pool.now counts.old) ≡ left (halves result) counts.new }
{
    halves::of(pool::class_count(pool, counts))
}
