// The piston bank for C: crate bank's own calls, answered as the pool's are. A bank is 32 numbers, and in C a pointer to the first.
ghost use Rattle.std.specs.Prelude.{◌≡◌};
ghost use Rattle.bank.specs.Calls as call;
ghost use Rattle.board.specs.Heard.{halves, heard};
ghost use Rattle.board.specs.Pistons.{leaves_both, left_both};

use crate::halves;

// Sets a piston; answers the pool's length.
pub fn bank_set(pool: &mut [u8], bank: &mut [u32; 32], piston: u32, kind: u8, body: &[u8]) -> u64
    ensures { leaves_both (call.set pool.old bank.old piston kind body.now) ≡ left_both (halves result) pool.new bank.new }
{
    halves::of(bank::set(pool, bank, piston, kind, body))
}

// Clears a piston; answers the pool's length.
pub fn bank_clear(pool: &mut [u8], bank: &mut [u32; 32], piston: u32) -> u64
    ensures { leaves_both (call.clear pool.old bank.old piston) ≡ left_both (halves result) pool.new bank.new }
{
    halves::of(bank::clear(pool, bank, piston))
}

// Recalls a piston; answers how many bytes the record has. It starts at the piston's offset, which C reads from the bank.
pub fn bank_recall(pool: &[u8], bank: &[u32; 32], piston: u32) -> u64
    ensures { heard (call.asked (call.recall pool.now bank.now piston)) ≡ halves result }
{
    halves::of(bank::ask(pool, bank, piston))
}
