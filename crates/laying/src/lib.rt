// Laying out: the governed bytes of a fresh pool, over whatever stands in the buffer.
#![tactic(auto)]

ghost use Rattle.std.specs.Prelude.{◌≡◌, ◌≢◌, IfSome, IfNone};
ghost use Rattle.paper.specs.Fresh.{layout_top};
ghost use Rattle.laying.specs.LayingOut.{cleared_to, lay_out};

// How high the index of a layout is, of layout 1 and of layout 2; no other number names one.
pub fn top_of(layout: u32) -> Option<u32>
    ensures named { IfSome result (λ top. (top ≡ layout_top layout) × (top ≢ 0)) }
    ensures unnamed { IfNone result (layout_top layout ≡ 0) }
{
    match layout {
        1 => Some(1),
        2 => Some(paper::LEVELS),
        _ => None,
    }
}

// The header and the false block are zeros.
fn clear(pool: &mut [u8])
    ensures { pool.new ≡ cleared_to 42 pool.old }
{
    for k in 0..42 {
        words::put(pool, 4 * k, 0u32);
    }
}

// Lays the buffer out as a fresh pool of n bytes, its own length, which is allowed, with an index `top` high: after the zeros, the words that
// are not 0. There is no bin yet, so the index words of either layout are 0.
pub fn lay_out(pool: &mut [u8], n: u32, top: u32)
    ensures { pool.new ≡ lay_out pool.old n top }
{
    let rest = words::minus(n, paper::BLOCKS);
    clear(pool);
    words::put(pool, paper::FREE_WORD, words::minus(rest, 4) as u64);
    words::put(pool, paper::FALSE_WORD, paper::FALSE_BLOCK as u64);
    words::put(pool, paper::START, paper::BLOCKS as u64);
    words::put(pool, paper::END, n as u64);
    words::put_field(pool, paper::FALSE_BLOCK, paper::LEVEL, top);
    words::put(pool, paper::BLOCKS as usize, heads::free_head(rest));
}
