// How a block is granted. Total, and with no inspection of its own: the pool's calls inspect first.
//
// Bytes that stay: only words that are governed afterwards are stored, so a taken payload keeps its old bytes.
#![tactic(auto)]

mod granted;
mod large;
mod small;

ghost use Rattle.std.specs.Prelude.{◌≡◌, Ok};
ghost use Rattle.paper.specs.Answers.{out};
ghost use Rattle.grant.specs.Take.{carry, CarriesOut, take as take-of};

use choosing::{Choice, choose};
use paper::Refusal;

// What was chosen is done, on the pool that it was chosen for; answers where the payload starts.
fn carry(pool: &mut [u8], choice: Choice) -> u32
    ensures { carry pool.old choice ≡ out (Ok result) pool.new }
{
    // Each case has data of its own, so no function is picked by it alone.
    match choice {
        Choice::FirstOfBin(q, b) => small::take_first(pool, q, b),
        Choice::HighEnd(rest, b) => small::cut_high(pool, rest, b),
        Choice::ExactBin(bin, b) => large::take_whole(pool, bin, b),
        Choice::LargerBin(bin, b) => large::take_part(pool, bin, b),
        Choice::LowEnd(rest, b) => large::cut_low(pool, rest, b),
    }
}

// The same of a choice or the refusal in its place, of whatever kind: it is handed on, and nothing is done.
pub fn carry_out<E>(pool: &mut [u8], choice: Result<Choice, E>) -> Result<u32, E>
    ensures { CarriesOut pool.old choice result pool.new }
{
    Ok(carry(pool, choice?))
}

// Grants a block for a payload of s bytes; answers where the payload starts.
pub fn take(pool: &mut [u8], s: u32) -> Result<u32, Refusal>
    ensures { take-of pool.old s ≡ out result pool.new }
{
    let choice = choose(pool, s);
    carry_out(pool, choice)
}
