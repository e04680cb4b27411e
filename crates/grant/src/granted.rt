// What every grant ends with.
ghost use Rattle.std.specs.Prelude.{◌≡◌, Ok};
ghost use Rattle.paper.specs.Answers.{out};
ghost use Rattle.grant.specs.Granted.{granted as granted-of};

use paper::FREE_WORD;

// The free word falls by b, and the answer is where the payload of the block at q starts.
pub fn granted(pool: &mut [u8], q: u32, b: u32) -> u32
    ensures { granted-of pool.old q b ≡ out (Ok result) pool.new }
{
    let free = words::get::<u32>(pool, FREE_WORD);
    words::put(pool, FREE_WORD, words::minus(free, b));
    words::plus(q, 4)
}
