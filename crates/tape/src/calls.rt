// The run's pool, which is the first n bytes of its buffer, and the pool's calls on it.
ghost use Rattle.std.specs.Prelude.{◌≡◌, ◌<◌, ◌≤◌, IfSome, IfNone, length};
ghost use Rattle.paper.specs.Answers.{out};
ghost use Rattle.pool.specs.Calls as call;
ghost use Rattle.tape.specs.Serve.{on_first, figures_first, accepted};
ghost use Rattle.tape.specs.Called.{Called};

use paper::{Figures, Refusal};

// A lent buffer and a length, since no byte may be on the heap.
#[derive(Drop)]
pub struct RunPool<'a> {
    pub buffer: &'a mut [u8],
    pub n: u32,
}

impl RunPool<'_> {
    // Lays out the first `new` bytes. Where that is refused, the pool stays the old one.
    pub fn lay_out(&mut self, new: u32, layout: u32) -> Result<u32, Refusal>
        ensures { Called self.old (on_first (λ s. call.lay_out s layout) new self.old.buffer.now) (accepted result new self.old.n) result self.new }
    {
        let answer = lay_out(self.buffer, new, layout);
        match answer {
            Ok(_) => self.n = new,
            Err(_) => {}
        }
        answer
    }

    pub fn take(&mut self, size: u32) -> Result<u32, Refusal>
        ensures { Called self.old (on_first (λ s. call.take s size) self.old.n self.old.buffer.now) self.old.n result self.new }
    {
        take(self.buffer, self.n, size)
    }

    pub fn give_back(&mut self, offset: u32) -> Result<u32, Refusal>
        ensures { Called self.old (on_first (λ s. call.give_back s offset) self.old.n self.old.buffer.now) self.old.n result self.new }
    {
        give_back(self.buffer, self.n, offset)
    }

    pub fn figures(&self) -> Result<Figures, Refusal>
        ensures { result ≡ figures_first self.now.n self.now.buffer.now }
    {
        match self.buffer.get(..self.n as usize) {
            Some(pool) => pool::figures(pool),
            None => Err(Refusal::NotAllowed),
        }
    }
}

// Where the first n bytes of a buffer end, if it has them.
fn first(buffer: &[u8], n: u32) -> Option<usize>
    ensures within { IfSome result (λ end. (end ≡ n) × (n ≤ length buffer.now)) }
    ensures past { IfNone result (length buffer.now < n) }
{
    let end = n as usize;
    if buffer.len() < end {
        return None;
    }
    Some(end)
}

// The calls that change the pool, on the first n bytes of the buffer; an n that it does not have is not allowed. Not one for three that
// takes the call as a closure: it would have to ask of its caller that the closure may be called.
fn lay_out(buffer: &mut [u8], n: u32, layout: u32) -> Result<u32, Refusal>
    ensures { on_first (λ s. call.lay_out s layout) n buffer.old ≡ out result buffer.new }
{
    let Some(end) = first(buffer, n) else {
        return Err(Refusal::NotAllowed);
    };
    pool::lay_out(&mut buffer[..end], layout)
}

fn take(buffer: &mut [u8], n: u32, size: u32) -> Result<u32, Refusal>
    ensures { on_first (λ s. call.take s size) n buffer.old ≡ out result buffer.new }
{
    let Some(end) = first(buffer, n) else {
        return Err(Refusal::NotAllowed);
    };
    pool::take(&mut buffer[..end], size)
}

fn give_back(buffer: &mut [u8], n: u32, offset: u32) -> Result<u32, Refusal>
    ensures { on_first (λ s. call.give_back s offset) n buffer.old ≡ out result buffer.new }
{
    let Some(end) = first(buffer, n) else {
        return Err(Refusal::NotAllowed);
    };
    pool::give_back(&mut buffer[..end], offset)
}
