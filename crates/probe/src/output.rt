// What is written to standard output, piece by piece. A piece that is not written has been said, and no other follows it.
use crate::stop::Stop;
use paper::{Figures, Refusal};
use std::fmt;
use std::fmt::Write;

const DIGITS: [u8; 16] = *b"0123456789abcdef";

#[derive(Drop)]
pub struct Output<'a, R> {
    pub rt: &'a R,
}

impl<R: Print + Eprint> Write for Output<'_, R> {
    fn write_str(&mut self, s: &str) -> fmt::Result {
        streams::write(self.rt, s.as_bytes()).map_err(|_| fmt::Error)
    }
}

impl<R: Print + Eprint> Output<'_, R> {
    // The letter that a line begins with, and an answer's number and value.
    pub fn begin(&mut self, letter: char, answer: Result<u32, Refusal>) -> Result<(), Stop> {
        let (number, value) = match answer {
            Ok(value) => (0, value),
            Err(refusal) => (u8::from(refusal), 0),
        };
        write!(self, "{letter} {number} {value}")?;
        Ok(())
    }

    pub fn end(&mut self) -> Result<(), Stop> {
        writeln!(self)?;
        Ok(())
    }

    // A whole line of a call.
    pub fn line(&mut self, letter: char, answer: Result<u32, Refusal>) -> Result<(), Stop> {
        self.begin(letter, answer)?;
        self.end()
    }

    pub fn unreadable(&mut self) -> Result<(), Stop> {
        self.line('X', Err(Refusal::Unreadable))
    }

    // Each number after a space.
    pub fn numbers(&mut self, numbers: &[u32]) -> Result<(), Stop> {
        for v in numbers {
            write!(self, " {v}")?;
        }
        Ok(())
    }

    pub fn figures(&mut self, tally: Result<Figures, Refusal>) -> Result<(), Stop> {
        match tally {
            Ok(f) => {
                write!(self, "S 0")?;
                self.numbers(&[
                    f.held_blocks,
                    f.held_bytes,
                    f.free_small,
                    f.free_large,
                    f.remainder,
                    f.free_word,
                    f.largest,
                ])?;
                self.end()
            }
            Err(refusal) => self.line('S', Err(refusal)),
        }
    }

    // How many bytes there are, and the bytes in lower-case hex, by way of a buffer; `-` where there are none.
    // The digits are looked up: `{b:02x}` would take some ten times as long for each byte.
    pub fn bytes(&mut self, bytes: &[u8]) -> Result<(), Stop> {
        let n = bytes.len();
        write!(self, " {n} ")?;
        if n == 0 {
            write!(self, "-")?;
        }
        let mut digits = [0u8; 4096];
        for part in bytes.chunks(2048) {
            for (i, b) in part.iter().enumerate() {
                digits[2 * i] = DIGITS[(*b >> 4) as usize];
                digits[2 * i + 1] = DIGITS[(*b & 15) as usize];
            }
            // No part has more digits than that.
            let end = (2 * part.len()).min(digits.len());
            streams::write(self.rt, &digits[..end])?;
        }
        Ok(())
    }
}
