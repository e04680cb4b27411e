// The size classes of held blocks: class k has size (4 + k mod 4) × 2^(k div 4 + 1), for k from 0 to 52 (as a table: specs/Sizes.antt).
#![tactic(auto)]

ghost use Rattle.std.specs.Prelude.{◌≡◌};
ghost use Rattle.classes.specs.Class.{class_of};

// How many classes there are, and the answer where no class holds the payload: a number and no Option, since the contract is the paper's `class_of`.
pub const CLASSES: u32 = 53;

// The size of the first class.
const LEAST: u32 = 8;

// The size of the last class.
const GREATEST: u32 = 65536;

// The least class whose size is at least the payload. Above 8, let top be the three top bits of payload - 1, and place how many bits are
// below them: class 4 × place + top - 8 has top × 2^place bytes, just too few, and the next one has (top + 1) × 2^place, which is enough.
// Payload 100: 99 is 110 0011 in bits, so top is 6 and place is 4; class 14 has 96 bytes, and class 15 has 112.
pub fn class_of(payload: u32) -> u32
    ensures { result ≡ class_of payload }
{
    if payload <= LEAST {
        return 0;
    }
    if payload > GREATEST {
        return CLASSES;
    }
    let less_one = payload - 1;
    let place = 29 - less_one.leading_zeros(); // of 32 bits, without the three and the zeros above them
    let top = less_one >> place;
    4 * place + top - 7
}
