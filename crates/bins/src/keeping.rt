// Words that are kept while others are stored, and put back. Their offsets go on by 4 in the sum of 32 bits, which no range counts.
ghost use Rattle.std.specs.Prelude.{◌≡◌, length};
ghost use Rattle.bins.specs.Keep.{words_at, put_words};

// The words from `offset` on in the block at q, as many as the list is long.
pub fn keep(pool: &[u8], q: u32, offset: u32, kept: &mut [u32])
    ensures { kept.new ≡ words_at pool.now q offset (length kept.old) }
{
    let mut at = offset;
    for word in kept.iter_mut() {
        *word = words::field(pool, q, at);
        at = words::plus(at, 4);
    }
}

pub fn put_back(pool: &mut [u8], q: u32, offset: u32, kept: &[u32])
    ensures { pool.new ≡ put_words pool.old q offset kept.now }
{
    let mut at = offset;
    for word in kept {
        words::put_field(pool, q, at, *word);
        at = words::plus(at, 4);
    }
}
