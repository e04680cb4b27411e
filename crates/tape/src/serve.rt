// One request is served: the pool is called, and its answer printed.
ghost use Rattle.tape.specs.Step.{Stepped};

use crate::calls::RunPool;
use lines::Head;
use records::Request;
use text::Page;

pub fn serve(pool: &mut RunPool, request: Request, nth: u32, page: &mut Page)
    ensures { Stepped pool.old request nth page.old pool.new page.new }
{
    // Each request has data of its own and a letter, so no call is picked by it alone.
    match request {
        Request::LayOut(new) => {
            let a = pool.lay_out(new, 1);
            Head { nth, letter: b'L' }.answer(page, a);
        }
        Request::LayOutIndexed(new) => {
            let a = pool.lay_out(new, 2);
            Head { nth, letter: b'M' }.answer(page, a);
        }
        Request::Take(size) => {
            let a = pool.take(size);
            Head { nth, letter: b'T' }.answer(page, a);
        }
        Request::GiveBack(offset) => {
            let a = pool.give_back(offset);
            Head { nth, letter: b'G' }.answer(page, a);
        }
        Request::Figures => {
            let t = pool.figures();
            Head { nth, letter: b'S' }.figures(page, t);
        }
    }
}
