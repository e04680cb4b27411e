// What a call finds when it reads the pool: every call but laying out asks this first, and serves only a pool that is sound.
#![tactic(auto)]

ghost use Rattle.std.specs.Prelude.{◌≡◌};
ghost use Rattle.reading.specs.Read as call;

pub use inspect::allowed;
use paper::Refusal;

// Refused where n is not allowed, and where the pool is not sound.
pub fn check(pool: &[u8]) -> Result<(), Refusal>
    ensures { result ≡ call.checked pool.now }
{
    check_by(pool, false)
}

// The same by the old rule, under which a free block could stand at E. For bring-in alone.
pub fn check_by_old_rule(pool: &[u8]) -> Result<(), Refusal>
    ensures { result ≡ call.old_checked pool.now }
{
    check_by(pool, true)
}

// By the old rule or by the one in force. Both have the same tests but one, and one function has them all: the compiler puts the inspection into its
// only caller, and keeps what is the same for every block in registers there.
fn check_by(pool: &[u8], old: bool) -> Result<(), Refusal>
    ensures { result ≡ call.checked_by old pool.now }
{
    if !allowed(pool.len()) {
        return Err(Refusal::NotAllowed);
    }
    if !edge_ok(pool, old) {
        return Err(Refusal::NotSound);
    }
    if !inspect::sound_by_old_rule(pool) {
        return Err(Refusal::NotSound);
    }
    Ok(())
}

// The old rule asks nothing of the block at E.
fn edge_ok(pool: &[u8], old: bool) -> bool
    ensures { result ≡ call.edge_ok old pool.now }
{
    if old {
        return true;
    }
    inspect::edge_held(pool)
}
