// One command: its body is read, the pool's call is made, its line is written.
use crate::image::Image;
use crate::input::Input;
use crate::output::Output;
use crate::stop::Stop;
use std::fmt::Write;
use std::io::Read;

// What the commands are about: where they come from, where their lines go, the pool, room for a body, and the bank.
#[derive(Drop)]
pub struct Bench<'a, R, I> {
    pub input: Input<'a, R, I>,
    pub output: Output<'a, R>,
    pub pool: Image,
    pub body: [u8; 65536],
    pub bank: [u32; 32],
}

impl<R: Print + Eprint, I: Read> Bench<'_, R, I> {
    pub fn step(&mut self, letter: u8) -> Result<(), Stop> {
        let pool = self.pool.pool_mut();
        let answer = match letter {
            b'L' => pool::lay_out(pool, 1),
            b'M' => pool::lay_out(pool, self.input.number()?),
            b'Y' => convert::convert(pool, self.input.number()?),
            b'H' => bringing::bring_in(pool),
            b'N' => pool::inspect(pool),
            b'T' => pool::take(pool, self.input.number()?),
            b'G' => pool::give_back(pool, self.input.number()?),
            b'A' => pool::ask(pool, self.input.number()?),
            b'Q' => bank::clear(pool, &mut self.bank, self.input.number()?),
            b'I' => Ok(self.pool.read(&mut self.input)?),
            b'B' => Ok(self.given()?),
            b'K' => self.set()?,
            b'P' => return self.lent(),
            b'W' => return self.written(),
            b'S' => return self.output.figures(pool::figures(pool)),
            b'C' => return self.classes(),
            b'D' => return self.dump(),
            b'R' => return self.recalled(),
            b'V' => return self.shown(),
            _ => return Err(Stop::Unreadable),
        };
        self.output.line(char::from(letter), answer)
    }

    // P: the payload at an offset, for reading.
    fn lent(&mut self) -> Result<(), Stop> {
        let offset = self.input.number()?;
        let pool = self.pool.pool();
        self.output.begin('P', pool::ask(pool, offset))?;
        self.output.bytes(pool::lend(pool, offset))?;
        self.output.end()
    }

    // W: the payload at an offset, for writing. As many bytes of the body as fit are written.
    fn written(&mut self) -> Result<(), Stop> {
        let offset = self.input.number()?;
        let n = self.input.number()?;
        self.input.fill(&mut self.body, n)?;
        let pool = self.pool.pool_mut();
        let answer = pool::ask(pool, offset);
        let part = pool::lend_mut(pool, offset);
        for (to, from) in part.iter_mut().zip(&self.body[..n as usize]) {
            *to = *from;
        }
        let length = part.len();
        self.output.begin('W', answer)?;
        write!(self.output, " {length}")?;
        self.output.end()
    }

    // C: the class count, into k counters that start as 7.
    fn classes(&mut self) -> Result<(), Stop> {
        let k = self.input.number()? as usize;
        let mut counts = [7u32; 64];
        if counts.len() < k {
            return Err(Stop::Unreadable);
        }
        let counts = &mut counts[..k];
        let answer = pool::class_count(self.pool.pool(), counts);
        self.output.begin('C', answer)?;
        self.output.numbers(counts)?;
        self.output.end()
    }

    // D: all bytes.
    fn dump(&mut self) -> Result<(), Stop> {
        write!(self.output, "D 0")?;
        self.output.bytes(self.pool.pool())?;
        self.output.end()
    }
}
