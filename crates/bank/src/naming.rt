// What every call of the bank asks first: of the pool, of the piston, and of all that the bank names.
ghost use Rattle.std.specs.Prelude.{◌≡◌, None};
ghost use Rattle.bank.specs.Asks.{Asks};
ghost use Rattle.bank.specs.Calls.{past, refused};

use paper::Refusal;

pub const PISTONS: u32 = 32;

// Refused for a piston above 31.
fn check(piston: u32) -> Result<(), Refusal>
    ensures { refused result ≡ past piston None }
{
    if piston < PISTONS {
        return Ok(());
    }
    Err(Refusal::NoPiston)
}

// What is asked of the pool for a call, at one reading: the bytes of the payload that the piston names, 0 where it is empty; or the first of
// 1, 2, 10 and 12 that refuses. A piston above 31 is told before a bank that names what is not held.
pub fn asked(pool: &[u8], bank: &[u32; 32], piston: u32) -> Result<u32, Refusal>
    ensures { Asks pool.now bank.now piston result }
{
    match pool::ask_all(pool, bank, piston) {
        Ok(long) => {
            check(piston)?;
            Ok(long)
        }
        Err(Refusal::NotHeld) => {
            check(piston)?;
            Err(Refusal::NotNamed)
        }
        Err(why) => Err(why),
    }
}
