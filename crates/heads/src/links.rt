// Links: a signed distance of 32 bits, read from a word, added to a block's start, negated for the link back.
// "None" is 0 and no Option: the contracts say what stands in the pool, and a start is never 0.
ghost use Rattle.std.specs.Prelude.{◌≡◌};
ghost use Rattle.std.specs.Int.{w32, cast_signed};
ghost use Rattle.heads.specs.Links.{link_word, followed};
ghost use Rattle.words.specs.Sums.{minus};

// The signed distance from one start to another.
fn distance(from: u32, to: u32) -> i32
    ensures { result ≡ cast_signed w32 (minus to from) }
{
    words::minus(to, from).cast_signed()
}

// The link word from a block to another; 0 where there is none.
pub fn link_word(from: u32, to: u32) -> u32
    ensures { result ≡ link_word from to }
{
    if to == 0 {
        0
    } else {
        distance(from, to).cast_unsigned()
    }
}

// Where a link word leads; 0 where it leads nowhere.
pub fn follow(from: u32, word: u32) -> u32
    ensures { result ≡ followed from word }
{
    if word == 0 {
        0
    } else {
        from.wrapping_add_signed(word.cast_signed())
    }
}

// Both words of a link between two blocks: there, and back by the negated distance.
#[derive(Clone, Copy, Debug, PartialEq, Eq)]
pub struct Pair {
    pub there: u32,
    pub home: u32,
}

pub fn both_ways(from: u32, to: u32) -> Pair
    ensures { (result.there ≡ minus to from) × (result.home ≡ minus from to) }
{
    let there = distance(from, to);
    Pair {
        there: there.cast_unsigned(),
        home: there.wrapping_neg().cast_unsigned(),
    }
}
