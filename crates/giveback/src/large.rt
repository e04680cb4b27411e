// A large block is joined with the free large block below and the one above; the run joins the remainder or enters its bin.
// `start` and q stay two numbers: a struct of both would be taken apart again at each use, since either is also passed on alone.
ghost use Rattle.std.specs.Prelude.{◌≡◌};
ghost use Rattle.giveback.specs.Large.{run_start, leave_below, settle as settle-of, join_rest, join_run, give_back_large};

use heads::Head;
use paper::{END, START};

// Where the run starts: at the free large block below, whose size its footer tells, or at q.
fn run_start(pool: &[u8], q: u32) -> u32
    ensures { result ≡ run_start pool.now q }
{
    let head = Head::from(words::get::<u32>(pool, q as usize));
    if head.p {
        return q;
    }
    let foot = words::get::<u32>(pool, words::minus(q, 4) as usize);
    words::minus(q, Head::from(foot).size)
}

// The free block at `start`, if it is another than q, leaves its bin.
fn leave_below(pool: &mut [u8], start: u32, q: u32)
    ensures { pool.new ≡ leave_below pool.old start q }
{
    if start == q {
        return;
    }
    bins::leave(pool, start);
}

// The bytes from `start` to `end` are one free block, and it enters its bin.
fn settle(pool: &mut [u8], start: u32, end: u32)
    ensures { pool.new ≡ settle-of pool.old start end }
{
    bins::enter(pool, start, words::minus(end, start));
}

// The run touches the remainder, which then starts where the run starts.
fn join_rest(pool: &mut [u8], start: u32, q: u32)
    ensures { pool.new ≡ join_rest pool.old start q }
{
    leave_below(pool, start, q);
    let end = words::get::<u32>(pool, END);
    words::put(pool, START, start);
    words::put(
        pool,
        start as usize,
        heads::free_head(words::minus(end, start)),
    );
}

// The run ends at `top`, or past the free block there.
fn join_run(pool: &mut [u8], start: u32, q: u32, top: u32)
    ensures { pool.new ≡ join_run pool.old start q top }
{
    let word = words::get::<u32>(pool, top as usize);
    let above = Head::from(word);
    if above.held {
        leave_below(pool, start, q);
        words::put(pool, top as usize, heads::with_p(word, false));
        settle(pool, start, top);
        return;
    }
    let end = words::plus(top, above.size);
    if start == q {
        bins::leave(pool, top);
        settle(pool, start, end);
        return;
    }
    bins::leave_both(pool, start, top);
    settle(pool, start, end);
}

pub fn give_back_large(pool: &mut [u8], q: u32, z: u32)
    ensures { pool.new ≡ give_back_large pool.old q z }
{
    let start = run_start(pool, q);
    let top = words::plus(q, z);
    if top == words::get::<u32>(pool, START) {
        join_rest(pool, start, q);
        return;
    }
    join_run(pool, start, q, top);
}
