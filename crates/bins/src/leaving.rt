// Free large blocks leave their bins.
ghost use Rattle.std.specs.Prelude.{◌≡◌};
ghost use Rattle.bins.specs.Leave.{leave_later, pass_over, leave_first, TakenOut, leave as leave-of, leave_both};

use crate::chain::{Bin, exact, linked, size_of};
use crate::heading::rehead;
use crate::keeping::{keep, put_back};
use paper::{LEVEL, NEXT, PREVIOUS};

// The block q, which stands after `previous`.
fn leave_later(pool: &mut [u8], previous: u32, q: u32)
    ensures { pool.new ≡ leave_later pool.old previous q }
{
    let next = linked(pool, q, NEXT);
    if next == 0 {
        words::put_field(pool, previous, NEXT, 0);
        return;
    }
    let link = heads::both_ways(previous, next);
    words::put_field(pool, previous, NEXT, link.there);
    words::put_field(pool, next, PREVIOUS, link.home);
}

// The only block of a bin: the index passes over it. A bin that was found below its highest level is looked for once more.
fn pass_over(pool: &mut [u8], bin: Bin)
    ensures { pool.new ≡ pass_over pool.old bin }
{
    let first = bin.first;
    let size = bin.size;
    if bin.level == levels::height(levels::top(pool), size) {
        rehead(pool, bin, size, first, 0);
        return;
    }
    let again = exact(pool, size);
    rehead(pool, again, size, first, 0);
}

// The first block q of a bin, found on its highest level: the second becomes first, with a level word of its own, or the index passes over.
fn leave_first(pool: &mut [u8], bin: Bin, size: u32, q: u32)
    ensures { pool.new ≡ leave_first pool.old bin size q }
{
    let second = linked(pool, q, NEXT);
    if second == 0 {
        rehead(pool, bin, size, q, 0);
        return;
    }
    words::put_field(pool, second, PREVIOUS, 0);
    words::put_field(pool, second, LEVEL, bin.level);
    rehead(pool, bin, size, q, second);
}

// The block of a bin that is used, the second where there is one, else the first.
pub fn take_out(pool: &mut [u8], bin: Bin) -> u32
    ensures { TakenOut pool.old bin result pool.new }
{
    let first = bin.first;
    let second = linked(pool, first, NEXT);
    if second == 0 {
        pass_over(pool, bin);
        return first;
    }
    leave_later(pool, first, second);
    second
}

// The block q, wherever it stands.
pub fn leave(pool: &mut [u8], q: u32)
    ensures { pool.new ≡ leave-of pool.old q }
{
    let previous = linked(pool, q, PREVIOUS);
    if previous != 0 {
        leave_later(pool, previous, q);
        return;
    }
    let size = size_of(pool, q);
    let bin = exact(pool, size);
    leave_first(pool, bin, size, q);
}

// Two blocks, of which the second is to keep its bytes. They may stand next to each other in one list, or before one another in the index,
// and then the first to leave stores into the second: its words are kept, and put back. An index word past its height is never stored to.
pub fn leave_both(pool: &mut [u8], below: u32, above: u32)
    ensures { pool.new ≡ leave_both pool.old below above }
{
    let height = levels::height(levels::top(pool), size_of(pool, above));
    let index = levels::word(height);
    // Arrays with a part in use: there is no heap.
    let mut links: [u32; 3] = [0; 3];
    let mut index_words: [u32; 13] = [0; 13];
    keep(pool, above, PREVIOUS, &mut links);
    keep(pool, above, index, &mut index_words[..height as usize]);
    leave(pool, below);
    leave(pool, above);
    put_back(pool, above, PREVIOUS, &links);
    put_back(pool, above, index, &index_words[..height as usize]);
}
