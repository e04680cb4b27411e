// The numbers that stand in bytes as words: u32 in 4 of them, u64 in 8.
ghost use Rattle.std.specs.Prelude.{◌≡◌, ℕ, ◌+◌, ◌<◌, ◌≤◌, length, true, false};
ghost use Rattle.words.specs.Words.{word_at, put_at};

pub trait Word: Copy {
    // The number itself, and how many bytes it stands in.
    ghost number: { Self → ℕ };

    ghost WIDTH: { ℕ };

    const WIDTH: usize;

    // The word at `at`.
    fn read(s: &[u8], at: usize) -> Self
        ensures { number result ≡ word_at WIDTH s.now at };

    // Stores the word at `at`.
    fn write(self, s: &mut [u8], at: usize)
        ensures { s.new ≡ put_at WIDTH s.old at (number self) };
}

// Whether a word of this width at `at` is wholly in the bytes. The first difference is the same for every read of a pool, so a read costs one test.
fn is_within(s: &[u8], at: usize, width: usize) -> bool
    ensures yes { result ≡ true → at + width ≤ length s.now }
    ensures no { result ≡ false → length s.now < at + width }
{
    let n = s.len();
    if n < width {
        return false;
    }
    at <= n - width
}

// Four plain reads, which the machine does as one; and four plain stores.
// By hand, since from_le_bytes and to_le_bytes pass arrays as values, which C has not; and third_byte_weighs_as_the_second speaks of the worths.
impl Word for u32 {
    ghost number = { λ v. v };

    ghost WIDTH = { 4 };

    const WIDTH: usize = 4;

    fn read(s: &[u8], at: usize) -> u32 {
        if !is_within(s, at, Self::WIDTH) {
            return 0;
        }
        s[at] as u32
            + 256 * s[at + 1] as u32
            + 65536 * s[at + 2] as u32
            + 16777216 * s[at + 3] as u32
    }

    fn write(self, s: &mut [u8], at: usize) {
        if !is_within(s, at, Self::WIDTH) {
            return;
        }
        s[at] = (self % 256) as u8;
        s[at + 1] = (self / 256 % 256) as u8;
        s[at + 2] = (self / 65536 % 256) as u8;
        s[at + 3] = (self / 16777216 % 256) as u8;
    }
}

// Two words of 4 bytes, the low one first.
impl Word for u64 {
    ghost number = { λ v. v };

    ghost WIDTH = { 8 };

    const WIDTH: usize = 8;

    fn read(s: &[u8], at: usize) -> u64 {
        if !is_within(s, at, Self::WIDTH) {
            return 0;
        }
        u32::read(s, at) as u64 + 4294967296 * u32::read(s, at + 4) as u64
    }

    fn write(self, s: &mut [u8], at: usize) {
        if !is_within(s, at, Self::WIDTH) {
            return;
        }
        ((self % 4294967296) as u32).write(s, at);
        ((self / 4294967296) as u32).write(s, at + 4);
    }
}

// The word at `at`, of the width that is asked for.
pub fn get<W: Word>(s: &[u8], at: usize) -> W
    ensures { W.number result ≡ word_at W.WIDTH s.now at }
{
    W::read(s, at)
}

// Stores the word at `at`.
pub fn put<W: Word>(s: &mut [u8], at: usize, v: W)
    ensures { s.new ≡ put_at W.WIDTH s.old at (W.number v) }
{
    v.write(s, at);
}

// The word of 4 bytes, `offset` bytes past the position `at`.
pub fn field(s: &[u8], at: u32, offset: u32) -> u32
    ensures { result ≡ word_at 4 s.now (at + offset) }
{
    get(s, at as usize + offset as usize)
}

// Stores the word of 4 bytes, `offset` bytes past the position `at`.
pub fn put_field(s: &mut [u8], at: u32, offset: u32, v: u32)
    ensures { s.new ≡ put_at 4 s.old (at + offset) v }
{
    put(s, at as usize + offset as usize, v);
}
