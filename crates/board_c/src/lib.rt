// The public calls for C under their C names: each is the function of the crate board, and promises what that one does. (Two crates, since one is a library
// or an archive for C, and board is what others stand on.) The archive is made of
// this crate (tools/library). A slice is a pointer and a length in C, and a bank a pointer to its first number (include/pool.h, include/bank.h).
#![tactic(auto)]

ghost use Rattle.std.specs.Prelude.{◌≡◌};
ghost use Rattle.bank.specs.Calls as bank_call;
ghost use Rattle.board.specs.Heard as told;
ghost use Rattle.board.specs.Heard.{halves, heard, left, leaves};
ghost use Rattle.board.specs.Pistons.{leaves_both, left_both};
ghost use Rattle.bringing.specs.BringingIn as bringing;
ghost use Rattle.convert.specs.Converting as converting;
ghost use Rattle.pool.specs.Calls as call;

// Lays the buffer out as a fresh pool, in layout 1 or 2; answers its length.
#[unsafe(no_mangle)]
pub extern "C" fn pool_lay_out(pool: &mut [u8], layout: u32) -> u64
    ensures { leaves (call.lay_out pool.old layout) ≡ left (halves result) pool.new }
{
    board::pool_lay_out(pool, layout)
}

// Moves the pool from the layout `old` to the other one; answers its length.
#[unsafe(no_mangle)]
pub extern "C" fn pool_convert(pool: &mut [u8], old: u32) -> u64
    ensures { leaves (converting.convert pool.old old) ≡ left (halves result) pool.new }
{
    board::pool_convert(pool, old)
}

// Brings in a pool that was stored under the rule before 2026-06; answers how many blocks went home.
#[unsafe(no_mangle)]
pub extern "C" fn pool_bring_in(pool: &mut [u8]) -> u64
    ensures { leaves (bringing.bring_in pool.old) ≡ left (halves result) pool.new }
{
    board::pool_bring_in(pool)
}

// Whether the pool is sound; answers its length.
#[unsafe(no_mangle)]
pub extern "C" fn pool_inspect(pool: &[u8]) -> u64
    ensures { heard (call.inspect pool.now) ≡ halves result }
{
    board::pool_inspect(pool)
}

// Grants a block for a payload of `size` bytes; answers where the payload starts.
#[unsafe(no_mangle)]
pub extern "C" fn pool_take(pool: &mut [u8], size: u32) -> u64
    ensures { leaves (call.take pool.old size) ≡ left (halves result) pool.new }
{
    board::pool_take(pool, size)
}

// Takes the block of the payload at `offset` back; answers the payload's bytes.
#[unsafe(no_mangle)]
pub extern "C" fn pool_give_back(pool: &mut [u8], offset: u32) -> u64
    ensures { leaves (call.give_back pool.old offset) ≡ left (halves result) pool.new }
{
    board::pool_give_back(pool, offset)
}

// The bytes of the payload at `offset`.
#[unsafe(no_mangle)]
pub extern "C" fn pool_ask(pool: &[u8], offset: u32) -> u64
    ensures { heard (call.ask pool.now offset) ≡ halves result }
{
    board::pool_ask(pool, offset)
}

// Fills the list with the seven figures; answers the first, how many blocks are held.
#[unsafe(no_mangle)]
pub extern "C" fn pool_figures(pool: &[u8], figures: &mut [u32]) -> u64
    ensures { leaves (told.figures pool.now figures.old) ≡ left (halves result) figures.new }
{
    board::pool_figures(pool, figures)
}

// Fills the 53 counters with the held blocks by size class; answers how many are held.
#[unsafe(no_mangle)]
pub extern "C" fn pool_class_count(pool: &[u8], counts: &mut [u32]) -> u64
    ensures { leaves (call.class_count pool.now counts.old) ≡ left (halves result) counts.new }
{
    board::pool_class_count(pool, counts)
}

// Sets a piston; answers the pool's length.
#[unsafe(no_mangle)]
pub extern "C" fn bank_set(
    pool: &mut [u8],
    bank: &mut [u32; 32],
    piston: u32,
    kind: u8,
    body: &[u8],
) -> u64
    ensures { leaves_both (bank_call.set pool.old bank.old piston kind body.now) ≡ left_both (halves result) pool.new bank.new }
{
    board::bank_set(pool, bank, piston, kind, body)
}

// Clears a piston; answers the pool's length.
#[unsafe(no_mangle)]
pub extern "C" fn bank_clear(pool: &mut [u8], bank: &mut [u32; 32], piston: u32) -> u64
    ensures { leaves_both (bank_call.clear pool.old bank.old piston) ≡ left_both (halves result) pool.new bank.new }
{
    board::bank_clear(pool, bank, piston)
}

// Recalls a piston; answers how many bytes the record has. It starts at the piston's offset, which C reads from the bank.
#[unsafe(no_mangle)]
pub extern "C" fn bank_recall(pool: &[u8], bank: &[u32; 32], piston: u32) -> u64
    ensures { heard (bank_call.asked (bank_call.recall pool.now bank.now piston)) ≡ halves result }
{
    board::bank_recall(pool, bank, piston)
}
