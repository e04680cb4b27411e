// The pool that is looked at: the first n bytes of a buffer.
use crate::input::Input;
use crate::stop::Stop;
use std::io::Read;

#[derive(Drop)]
pub struct Image {
    buffer: [u8; 65536],
    n: usize,
}

impl Image {
    pub fn new() -> Image {
        Image {
            buffer: [0; 65536],
            n: 0,
        }
    }

    // n is never past the buffer. No ghost field says so, since a part of a struct that has one cannot be lent as `&mut`.
    pub fn pool(&self) -> &[u8] {
        let n = self.n.min(self.buffer.len());
        &self.buffer[..n]
    }

    pub fn pool_mut(&mut self) -> &mut [u8] {
        let n = self.n.min(self.buffer.len());
        &mut self.buffer[..n]
    }

    // The pool is the bytes that are read, and the answer their number.
    pub fn read<R: Eprint, I: Read>(&mut self, input: &mut Input<R, I>) -> Result<u32, Stop> {
        let n = input.number()?;
        input.fill(&mut self.buffer, n)?;
        self.n = n as usize;
        Ok(n)
    }
}
