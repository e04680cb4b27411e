// What is read from standard input, `from`. A reading that failed has been said, and is here as an input that ended.
ghost use Rattle.std.specs.Prelude.{◌≤◌, length, IfOk};

use crate::stop::Stop;
use std::io::Read;

#[derive(Drop)]
pub struct Input<'a, R, I> {
    pub rt: &'a R,
    pub from: &'a mut I,
}

impl<R: Eprint, I: Read> Input<'_, R, I> {
    // The next command's letter, if the input has not ended.
    pub fn letter(&mut self) -> Option<u8> {
        self.byte().ok()
    }

    pub fn byte(&mut self) -> Result<u8, Stop> {
        let mut one = [0u8; 1];
        self.fill(&mut one, 1)?;
        Ok(one[0])
    }

    // A number of 4 bytes.
    pub fn number(&mut self) -> Result<u32, Stop> {
        let mut four = [0u8; 4];
        self.fill(&mut four, 4)?;
        Ok(u32::from_le_bytes(four))
    }

    // Reads n bytes to the start of `to`; they cannot be read where `to` has no room for them.
    pub fn fill(&mut self, to: &mut [u8], n: u32) -> Result<(), Stop>
        ensures { IfOk result (λ _. n ≤ length to.old) }
    {
        let n = n as usize;
        if to.len() < n {
            return Err(Stop::Unreadable);
        }
        let got = streams::read(self.rt, self.from, &mut to[..n])?;
        if got < n {
            return Err(Stop::Unreadable);
        }
        Ok(())
    }
}
