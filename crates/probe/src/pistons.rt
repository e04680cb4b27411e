// The commands of the piston bank, over the pool and a bank of 32 numbers.
use crate::calls::Bench;
use crate::stop::Stop;
use paper::Refusal;
use std::fmt::Write;
use std::io::Read;

impl<R: Print + Eprint, I: Read> Bench<'_, R, I> {
    // B: the bank is the 32 numbers that are read, by one reading.
    pub fn given(&mut self) -> Result<u32, Stop> {
        let mut bytes = [0u8; 128];
        self.input.fill(&mut bytes, 128)?;
        for (i, number) in self.bank.iter_mut().enumerate() {
            *number = words::get(&bytes, 4 * i);
        }
        Ok(32)
    }

    // K: sets a piston. The body is short, so it is read into an array of its own.
    pub fn set(&mut self) -> Result<Result<u32, Refusal>, Stop> {
        let piston = self.input.number()?;
        let kind = self.input.byte()?;
        let n = self.input.number()?;
        let mut body = [0u8; 64];
        self.input.fill(&mut body, n)?;
        let pool = self.pool.pool_mut();
        Ok(bank::set(pool, &mut self.bank, piston, kind, &body[..n as usize]))
    }

    // R: recalls a piston.
    pub fn recalled(&mut self) -> Result<(), Stop> {
        let piston = self.input.number()?;
        let pool = self.pool.pool();
        let place = bank::find(pool, &self.bank, piston);
        let number = place.refusal.map_or(0, u8::from);
        write!(self.output, "R {number}")?;
        self.output.bytes(&pool[place.from..place.to])?;
        self.output.end()
    }

    // V: the bank's 32 numbers.
    pub fn shown(&mut self) -> Result<(), Stop> {
        self.output.begin('V', Ok(32))?;
        self.output.numbers(&self.bank)?;
        self.output.end()
    }
}
