// The head word, 4 bytes at a block's start:
//
//     bits 31 .. 2   size of the whole block, a multiple of 8
//     bit 1          P: 1 unless the block next below is a free large block
//     bit 0          a: 1 for held
ghost use Rattle.std.specs.Prelude.{◌≡◌};
ghost use Rattle.heads.specs.Heads.{head_of, size_of, flags_of, word_of, held_head, free_head, with_p, block_size};

#[derive(Clone, Copy, Debug, PartialEq, Eq)]
pub struct Head {
    pub size: u32,
    pub p: bool,
    pub held: bool,
}

impl From<u32> for Head {
    ghost from_gives = { λ w result. result ≡ head_of w };

    fn from(w: u32) -> Head
        ensures { result ≡ head_of w }
    {
        Head {
            size: w >> 2,
            p: (w >> 1) & 1 == 1,
            held: w & 1 == 1,
        }
    }
}

impl From<Head> for u32 {
    ghost from_gives = { λ h result. result ≡ word_of h };

    fn from(h: Head) -> u32
        ensures { result ≡ word_of h }
    {
        (h.size << 2) | ((h.p as u32) << 1) | (h.held as u32)
    }
}

// The size alone.
pub fn size_of(w: u32) -> u32
    ensures { result ≡ size_of w }
{
    w >> 2
}

// Both flags in one number, 2 × P + a, for one test of both.
pub fn flags_of(w: u32) -> u32
    ensures { result ≡ flags_of w }
{
    w & 3
}

// The flags of a held block, of a held block above a free large one, and of a free block.
pub const HELD: u32 = 3;

pub const HELD_ABOVE_FREE: u32 = 1;

pub const FREE: u32 = 2;

// The head of a held block above no free large block. It and `free_head` differ in a flag alone, and stay two: `true` at a call would say less.
pub fn held_head(size: u32) -> u32
    ensures { result ≡ held_head size }
{
    u32::from(Head {
        size,
        p: true,
        held: true,
    })
}

// The head of a free block; a free block never stands above a free large one.
pub fn free_head(size: u32) -> u32
    ensures { result ≡ free_head size }
{
    u32::from(Head {
        size,
        p: true,
        held: false,
    })
}

// The same head with another P, for the block above one that changed.
pub fn with_p(w: u32, p: bool) -> u32
    ensures { result ≡ with_p w p }
{
    u32::from(Head { p, ..Head::from(w) })
}

// The block size for a payload of s bytes: exact for every s, so it may need 33 bits.
pub fn block_size(s: u32) -> u64
    ensures { result ≡ block_size s }
{
    (s as u64 + 4 + 7) / 8 * 8
}
