// The bytes of a pool of n bytes. All words are little-endian; a header word has 8 bytes, any other 4.
//
//     0      free word: all free sizes, less 4
//     8      96
//     16     R, where the remainder starts
//     24     E, where it ends
//     32     first block of the small bin 8, or 0; then those of 16, 24, .. 64
//     96     the false block: 0, but for its level word (+12) and its index words
//     168    large blocks, end to end
//     R      the remainder
//     E      small blocks, end to end
//     n
//
// A free small block:
//
//     +0     head
//     +4     the next block of its bin, or 0
//
// A free large block:
//
//     +0     head
//     +4     distance to the previous block of its bin, 0 in the first
//     +8     distance to the next block of its bin, 0 in the last
//     +12    level word: h, up to which level the bin stands in the index              (only in the first block of a bin)
//     +64    index word of level 1, the chain word: distance to the first block of the next larger bin, 0 in the last   (only there)
//     +60    index word of level 2: distance to the next larger bin's that stands in level 2; and so on, level h at +68 - 4h
//     -4     the head again
//
// In layout 1 the index is 1 high, so h is 1 everywhere, and the words +16 to +60 are reserved. In layout 2 it is 13 high: the false block has h = 13,
// and a bin 1 plus the trailing zero bits of size / 8. Words between +16 and +68 - 4h are reserved; those of the false block are 0.

pub const FREE_WORD: usize = 0;

pub const FALSE_WORD: usize = 8;

pub const START: usize = 16;

pub const END: usize = 24;
// The small bin of size z has its word at SMALL_BINS + z.
pub const SMALL_BINS: u32 = 24;

pub const FALSE_BLOCK: u32 = 96;

pub const BLOCKS: u32 = 168;

pub const SMALL_NEXT: u32 = 4;

pub const PREVIOUS: u32 = 4;

pub const NEXT: u32 = 8;

pub const LEVEL: u32 = 12;

pub const CHAIN: u32 = 64;

// How many levels the index of layout 2 has.
pub const LEVELS: u32 = 13;

// The least size of a large block.
pub const LARGE: u32 = 72;
