// The records of a tape: "one byte of kind, then a body whose length the kind fixes".
ghost use Rattle.std.specs.Prelude.{◌≡◌};
ghost use Rattle.records.specs.Records.{read_at};

// The bytes of kind as the tape has them: `read` is the one place that turns them into a request, so an enum of them would stand between.
const LAY_OUT: u8 = 1;

const TAKE: u8 = 2;

const GIVE_BACK: u8 = 3;

const FIGURES: u8 = 4;

const LAY_OUT_INDEXED: u8 = 5;

// A lay out in layout 1, and one in layout 2, with the index; a take, a give-back, and the figures.
#[derive(Clone, Copy, Debug, PartialEq, Eq)]
pub enum Request {
    LayOut(u32),
    LayOutIndexed(u32),
    Take(u32),
    GiveBack(u32),
    Figures,
}

// The whole record at a place of the tape, with the place of the next one; none where it cannot be read.
pub fn read(tape: &[u8], at: usize) -> Option<(Request, usize)>
    ensures { result ≡ read_at tape.now at }
{
    let kind = *tape.get(at)?;
    let body = at + 1;
    if kind == FIGURES {
        return Some((Request::Figures, body));
    }
    if tape.len() - body < 4 {
        return None;
    }
    let number = words::get::<u32>(tape, body);
    let next = body + 4;
    match kind {
        LAY_OUT => Some((Request::LayOut(number), next)),
        TAKE => Some((Request::Take(number), next)),
        GIVE_BACK => Some((Request::GiveBack(number), next)),
        LAY_OUT_INDEXED => Some((Request::LayOutIndexed(number), next)),
        _ => None,
    }
}
