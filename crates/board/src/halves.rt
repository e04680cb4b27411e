// One number of 64 bits for an answer.
ghost use Rattle.std.specs.Prelude.{◌≡◌};
ghost use Rattle.board.specs.Heard.{halves, heard};

use paper::Refusal;

// The refusal's number in the upper half, the value in the lower half.
pub fn of(a: Result<u32, Refusal>) -> u64
    ensures { heard a ≡ halves result }
{
    match a {
        Ok(v) => v as u64,
        Err(k) => 4294967296 * (u8::from(k) as u64),
    }
}
