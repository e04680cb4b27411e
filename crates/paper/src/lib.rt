// What every public call answers, and the layout of a pool.
#![tactic(auto)]

ghost use Rattle.std.specs.Prelude.{◌≡◌};
ghost use Rattle.paper.specs.Answers.{code};

mod layout;

pub use layout::{
    BLOCKS, CHAIN, END, FALSE_BLOCK, FALSE_WORD, FREE_WORD, LARGE, LEVEL, LEVELS, NEXT, PREVIOUS,
    SMALL_BINS, SMALL_NEXT, START,
};

// Why a call is refused. Each has a number, which a caller in C and the lines of a program tell.
#[derive(Clone, Copy, Debug, PartialEq, Eq)]
pub enum Refusal {
    // The length is not one that a pool may have.
    NotAllowed,
    NotSound,
    // A take of no bytes.
    NoSize,
    NoRoom,
    // The offset is not where a held payload starts.
    NotHeld,
    // A lent list has not the length that it must have.
    ListLength,
    // A record of a tape does not read, or the tape is too long.
    Unreadable,
    // The number names no layout.
    NoLayout,
    // The bank has no such piston.
    NoPiston,
    // The kind is unknown, or the body is not as long as the kind says.
    NoRecord,
    // The bank names what is not held, or one payload twice, or a record that does not read.
    NotNamed,
    // The pool is not of the layout that was named.
    OtherLayout,
}

impl From<Refusal> for u8 {
    ghost from_gives = { λ why k. k ≡ code why };

    fn from(refusal: Refusal) -> u8 {
        match refusal {
            Refusal::NotAllowed => 1,
            Refusal::NotSound => 2,
            Refusal::NoSize => 3,
            Refusal::NoRoom => 4,
            Refusal::NotHeld => 5,
            Refusal::ListLength => 6,
            Refusal::Unreadable => 7,
            Refusal::NoLayout => 8,
            Refusal::NoPiston => 10,
            Refusal::NoRecord => 11,
            Refusal::NotNamed => 12,
            Refusal::OtherLayout => 13,
        }
    }
}

// The block that an address is in, by its kind, with its start and its size; or nothing, outside the blocks.
#[derive(Clone, Copy)]
pub enum Found {
    Held(u32, u32),
    Free(u32, u32),
    Remainder(u32, u32),
    Nothing,
}

// The seven figures of a pool. `largest` is the greatest payload that a take would be granted.
#[derive(Clone, Copy)]
pub struct Figures {
    pub held_blocks: u32,
    pub held_bytes: u32,
    pub free_small: u32,
    pub free_large: u32,
    pub remainder: u32,
    pub free_word: u32,
    pub largest: u32,
}
