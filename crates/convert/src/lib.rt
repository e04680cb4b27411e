// A pool moves from one layout to the other, in its own buffer (request 2026-05): a call above the pool. The caller names the layout that the
// pool has; blocks, held payloads and the order of every bin stay. It reads the pool itself first and has no precondition, and a refusal changes no byte.
#![tactic(auto)]

ghost use Rattle.std.specs.Prelude.{◌≡◌};
ghost use Rattle.paper.specs.Answers.{out};
ghost use Rattle.paper.specs.Fresh.{layout_top};
ghost use Rattle.convert.specs.Converting as call;

use paper::Refusal;

// How high the index of the other layout is.
fn other_top(old: u32) -> u32
    ensures { result ≡ layout_top (call.other old) }
{
    if old == 1 {
        return paper::LEVELS;
    }
    1
}

// Why the call is refused, in the order 1, 8, 2, 13.
fn check(pool: &[u8], old: u32) -> Result<(), Refusal>
    ensures { result ≡ call.checked pool.now old }
{
    if !reading::allowed(pool.len()) {
        return Err(Refusal::NotAllowed);
    }
    let Some(named) = laying::top_of(old) else {
        return Err(Refusal::NoLayout);
    };
    match reading::check(pool) {
        Err(why) => Err(why),
        Ok(()) if levels::top(pool) != named => Err(Refusal::OtherLayout),
        Ok(()) => Ok(()),
    }
}

// Moves the pool from the layout `old` to the other one; answers its length.
pub fn convert(pool: &mut [u8], old: u32) -> Result<u32, Refusal>
    ensures { call.convert pool.old old ≡ out result pool.new }
{
    check(pool, old)?;
    moving::move_to(pool, other_top(old));
    Ok(pool.len() as u32)
}
