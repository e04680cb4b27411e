// Looking an address up: the block that it is in. Only a walk knows the starts, whatever word stands before the address.
ghost use Rattle.std.specs.Prelude.{◌≡◌};
ghost use Rattle.walk.specs.LookUp as model;

use crate::blocks::Blocks;
use heads::Head;
use paper::{BLOCKS, END, Found, START};

// The block whose head stands at `at`.
fn found_at(head: Head, at: u32) -> Found
    ensures { result ≡ model.found_at head at }
{
    if head.held {
        return Found::Held(at, head.size);
    }
    Found::Free(at, head.size)
}

// The block that `address` is in, in the walk from `from`, which is not above it.
fn block_at(pool: &[u8], from: u32, address: u32) -> Found
    ensures { result ≡ model.block_at pool.now address from }
{
    for block in Blocks::up_to(pool, from, address) {
        if (address as usize) < block.start + block.head.size as usize {
            return found_at(block.head, block.start as u32);
        }
    }
    Found::Nothing
}

// The block that `address` is in: of the large ones below R, the remainder up to E, or of the small ones from there.
pub fn look_up(pool: &[u8], address: u32) -> Found
    ensures { result ≡ model.look_up pool.now address }
{
    if address < BLOCKS {
        return Found::Nothing;
    }
    let start = words::get::<u32>(pool, START);
    if address < start {
        return block_at(pool, BLOCKS, address);
    }
    let end = words::get::<u32>(pool, END);
    if address < end {
        return Found::Remainder(start, words::minus(end, start));
    }
    block_at(pool, end, address)
}
