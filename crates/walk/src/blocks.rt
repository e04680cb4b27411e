// The blocks of a pool between two positions, one after the other: what every walk goes along.
ghost use Rattle.std.specs.Prelude.{◌^◌, ◌≤◌};

use heads::Head;

// A block on the way: where it starts, and its head.
#[derive(Clone, Copy)]
pub struct Block {
    pub start: usize,
    pub head: Head,
}

// The blocks that start from `at` on and below `end`. One of size 0, which no sound pool has, ends them.
#[derive(Drop)]
pub struct Blocks<'a> {
    pool: &'a [u8],
    at: usize,
    end: usize,
    ghost near: { end ≤ 2 ^ 32 },
}

impl<'a> Blocks<'a> {
    ghost use Rattle.std.specs.Prelude.{◌+◌, max};
    ghost use Rattle.walk.specs.Steps.{Between};

    // Those that start below `to`.
    pub fn below(pool: &'a [u8], from: u32, to: u32) -> Blocks<'a>
        ensures { Between pool.now from to result }
    {
        Blocks {
            pool,
            at: from as usize,
            end: to as usize,
        }
    }

    // Those that start at `last` or below, and in any case the first.
    pub fn up_to(pool: &'a [u8], from: u32, last: u32) -> Blocks<'a>
        ensures { Between pool.now from (max from last + 1) result }
    {
        Blocks {
            pool,
            at: from as usize,
            end: from.max(last) as usize + 1,
        }
    }
}

impl<'a> Iterator for Blocks<'a> {
    ghost use Rattle.std.specs.Prelude.{◌-◌};
    ghost use Rattle.std.specs.Iterator.{at_most};
    ghost use Rattle.walk.specs.Steps.{Steps};

    type Item = Block;

    ghost next_gives = { Steps };

    ghost remaining = { λ s. at_most (s.end - s.at) };

    fn next(&mut self) -> Option<Block> {
        if self.end <= self.at {
            return None;
        }
        let start = self.at;
        let head = Head::from(words::get::<u32>(self.pool, self.at));
        if head.size == 0 {
            return None;
        }
        self.at += head.size as usize;
        Some(Block { start, head })
    }
}
