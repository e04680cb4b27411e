// The remainder, as the header gives it.
ghost use Rattle.std.specs.Prelude.{◌≡◌};
ghost use Rattle.choosing.specs.Remainder.{remainder as remainder_of};

#[derive(Clone, Copy)]
pub struct Rest {
    pub start: u32,
    pub end: u32,
    pub size: u32,
}

pub fn remainder(pool: &[u8]) -> Rest
    ensures { result ≡ remainder_of pool.now }
{
    let start = words::get::<u32>(pool, paper::START);
    let end = words::get::<u32>(pool, paper::END);
    Rest {
        start,
        end,
        size: words::minus(end, start),
    }
}
