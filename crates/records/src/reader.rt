// The tape reader: a tape and a place in it. The paper asks for this form, a thin struct over a function on slice and number, so the
// reader does no work of its own.
ghost use Rattle.std.specs.Prelude.{◌≡◌};
ghost use Rattle.records.specs.Records.{read_at};

use crate::request::{Request, read};

#[derive(Clone, Copy)]
pub struct Reader<'a> {
    pub tape: &'a [u8],
    pub at: usize,
}

impl Reader<'_> {
    // The record that stands where the reader is.
    pub fn record(self) -> Option<(Request, usize)>
        ensures { result ≡ read_at self.entry.tape.now self.entry.at }
    {
        read(self.tape, self.at)
    }
}

// The record at a place of a tape, asked of a reader. It takes slice and number again: the run asks the reader, and its proof never
// meets the struct.
pub fn record_at(tape: &[u8], at: usize) -> Option<(Request, usize)>
    ensures { result ≡ read_at tape.now at }
{
    Reader { tape, at }.record()
}
