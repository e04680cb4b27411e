// The request tape: its records are read and served one after the other, and each prints a line.
#![tactic(auto)]

ghost use Rattle.std.specs.Prelude.{◌≡◌};
ghost use Rattle.lines.specs.Printed.{Printed};
ghost use Rattle.tape.specs.Run.{run_of, leaves, left, x_line};

mod calls;
mod serve;

use calls::RunPool;
use lines::Head;
use paper::Refusal;
use records::record_at;
use serve::serve;
use text::Page;

// The longest tape that is run, in bytes.
pub const LONGEST: usize = 32_768;

// The buffer that the run's pool is laid out in, in bytes: the greatest pool.
pub const BUFFER: usize = 65_536;

// Room for the lines: a tape has at most as many records as bytes, and a line at most 96 bytes.
pub const ROOM: usize = 3_145_728;

// Runs a tape, puts its lines at the start of `out`, and answers how many bytes they are.
pub fn run(tape: &[u8], buffer: &mut [u8; BUFFER], out: &mut [u8; ROOM]) -> usize
    ensures { leaves (run_of tape.now buffer.old) out.old ≡ left result buffer.new out.new }
{
    let mut page = Page { out, at: 0 };
    if tape.len() > LONGEST {
        unreadable(0, &mut page);
        return page.at;
    }
    let mut pool = RunPool { buffer, n: 0 };
    let mut at: usize = 0;
    let mut nth: u32 = 1;
    // No iterator over the records: one that cannot be read ends the run with a line of its own, so each would be an Option to match all the same.
    while at < tape.len() {
        let Some((request, next)) = record_at(tape, at) else {
            unreadable(nth, &mut page);
            return page.at;
        };
        serve(&mut pool, request, nth, &mut page);
        at = next;
        nth += 1;
    }
    page.at
}

// The line of a record that cannot be read, and of a tape that is too long.
fn unreadable(nth: u32, page: &mut Page)
    ensures { Printed page.old (x_line nth) page.new }
{
    Head { nth, letter: b'X' }.answer(page, Err(Refusal::Unreadable));
}
