// What a program reads and writes, and what it says where that fails. Its exit status tells nothing: a failure is said on standard
// error, and nothing else is ever written there.
#![tactic(auto)]

ghost use Rattle.std.specs.Prelude.{◌<◌, length, take, IfOk};
ghost use Rattle.std.specs.Counts.{IsPrefixLen};
ghost use Rattle.std.specs.Io.KnownBytes.{Consumes, IsAtEnd};

use std::io::Read;

// Standard input cannot be read, and that has been said.
#[derive(Clone, Copy, Debug, PartialEq, Eq)]
pub struct NotRead;

// Standard output cannot be written, lines are lost, and that has been said.
#[derive(Clone, Copy, Debug, PartialEq, Eq)]
pub struct NotWritten;

// Reads `from`, which is standard input, until `to` is full or the input ends, and answers how many bytes it put at the start of
// `to`. A reading that fails is an error, so that half of an input is never taken for the whole.
pub fn read<R: Read>(rt: &impl Eprint, from: &mut R, to: &mut [u8]) -> Result<usize, NotRead>
    ensures within { IfOk result (λ n. IsPrefixLen n to.new) }
    ensures bytes { IfOk result (λ n. Consumes (R.remaining from.old) (R.remaining from.new) (take n to.new)) }
    ensures whole { IfOk result (λ n. n < length to.new → IsAtEnd (R.remaining from.new)) }
{
    let mut done: usize = 0;
    // A reading gives as many bytes as there are, so no range or iterator says where `done` goes.
    while done < to.len() {
        let Ok(more) = from.read(&mut to[done..]) else {
            return Err(not_read(rt));
        };
        if more == 0 {
            break;
        }
        done += more;
    }
    Ok(done)
}

// Writes all of `text` to standard output.
pub fn write(rt: &(impl Print + Eprint), text: &[u8]) -> Result<(), NotWritten> {
    rt.write_all(text).map_err(|_| not_written(rt))
}

// Where standard error cannot be written either, there is nobody left to tell.
fn not_read(rt: &impl Eprint) -> NotRead {
    let _ = rt.eprint("standard input cannot be read\n");
    NotRead
}

fn not_written(rt: &impl Eprint) -> NotWritten {
    let _ = rt.eprint("standard output cannot be written, and lines are lost\n");
    NotWritten
}
