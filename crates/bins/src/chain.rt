// Along the levels of the index, to the bin of a size.
ghost use Rattle.std.specs.Prelude.{◌≡◌};
ghost use Rattle.bins.specs.Find.{size_at, linked_at, found, along as along-of, down as down-of, search as search-of, exact as exact-of, find_on, empty as empty-in, none as none_in, size as size_in};

use heads::Head;
use paper::{CHAIN, FALSE_BLOCK};

// The size in the head of the block at q.
pub fn size_of(pool: &[u8], q: u32) -> u32
    ensures { result ≡ size_at pool.now q }
{
    Head::from(words::get::<u32>(pool, q as usize)).size
}

// The block that the link word at `offset` in the block at q leads to, 0 where to none.
pub fn linked(pool: &[u8], q: u32, offset: u32) -> u32
    ensures { result ≡ linked_at pool.now q offset }
{
    heads::follow(q, words::field(pool, q, offset))
}

// What was found for a size on a level of the index: the last block there that is smaller, the next one, and the size of that. Where there is
// no next one, the last two are 0. Other crates pass it on, and ask whether there is one and its size.
// No Option of the two: 0 is the pool's own word for none, `along` compares `first` with each link that it reads, and the models say so.
#[derive(Clone, Copy)]
pub struct Bin {
    pub(crate) level: u32,
    pub(crate) before: u32,
    pub(crate) first: u32,
    pub(crate) size: u32,
}

impl Bin {
    // Nothing comes past `before`.
    fn bare(level: u32, before: u32) -> Bin
        ensures { result ≡ found level before 0 0 }
    {
        Bin {
            level,
            before,
            first: 0,
            size: 0,
        }
    }

    // No bin was found.
    pub fn is_none(self) -> bool
        ensures { result ≡ none_in self }
    {
        self.first == 0
    }

    // The size of the bin that was found, 0 where there is none.
    pub fn size(self) -> u32
        ensures { result ≡ size_in self }
    {
        self.size
    }
}

// Along one level, from where the one above was left: up to the last bin that is smaller than `least`. What came next there comes next here
// too, unless another bin stands before it. In a sound pool the sizes rise; where they do not, the walk ends.
pub fn along(pool: &[u8], level: u32, bin: Bin, least: u32) -> Bin
    ensures { result ≡ along-of pool.now level bin least }
{
    let index = levels::word(level);
    let stop = bin.first;
    let mut before = bin.before;
    let mut below: u32 = 0;
    let mut first = linked(pool, before, index);
    while first != stop {
        let size = size_of(pool, first);
        if least <= size {
            return Bin {
                level,
                before,
                first,
                size,
            };
        }
        if size <= below {
            return Bin::bare(level, before);
        }
        before = first;
        below = size;
        first = linked(pool, first, index);
    }
    Bin {
        level,
        before,
        first: stop,
        size: bin.size,
    }
}

// The same level by level, down to the level `to`.
fn down(pool: &[u8], bin: Bin, to: u32, least: u32) -> Bin
    ensures { result ≡ down-of pool.now bin to least }
{
    let mut at = bin;
    for level in (to..bin.level).rev() {
        at = along(pool, level, at, least);
    }
    at
}

// From the block `before`, which stands on a level, down to the level `to`.
fn search(pool: &[u8], level: u32, before: u32, to: u32, least: u32) -> Bin
    ensures { result ≡ search-of pool.now level before to least }
{
    let at = along(pool, level, Bin::bare(level, before), least);
    down(pool, at, to, least)
}

// The bin of a size, or where it would stand, on the highest level that it reaches.
pub fn exact(pool: &[u8], size: u32) -> Bin
    ensures { result ≡ exact-of pool.now size }
{
    let top = levels::top(pool);
    search(
        pool,
        levels::start(top, size),
        FALSE_BLOCK,
        levels::height(top, size),
        size,
    )
}

// The smallest bin of at least a size, where `bin` was found for a smaller one: the way up to that is not walked again.
pub fn find_on(pool: &[u8], bin: Bin, least: u32) -> Bin
    ensures { result ≡ find_on pool.now bin least }
{
    let level = bin.level;
    if level == 1 {
        if bin.first == 0 {
            return bin;
        }
    }
    search(pool, level, bin.before, 1, least)
}

// There is no bin: on the lowest level nothing comes past the false block.
pub fn empty(pool: &[u8]) -> bool
    ensures { result ≡ empty-in pool.now }
{
    linked(pool, FALSE_BLOCK, CHAIN) == 0
}
