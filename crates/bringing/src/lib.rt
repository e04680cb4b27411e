// A pool that was stored under the old rule is brought in (request 2026-06): a call above the pool. Free small blocks at the edge go home, and
// all else stays. It reads the pool itself first, by the old rule, and has no precondition; a refusal changes no byte.
#![tactic(auto)]

ghost use Rattle.std.specs.Prelude.{◌≡◌};
ghost use Rattle.paper.specs.Answers.{out};
ghost use Rattle.bringing.specs.BringingIn as call;

use paper::Refusal;

// Answers how many blocks went home: 0 of a pool that is sound by the rule in force, and no byte of it changes.
pub fn bring_in(pool: &mut [u8]) -> Result<u32, Refusal>
    ensures { call.bring_in pool.old ≡ out result pool.new }
{
    let read = reading::check_by_old_rule(pool);
    read?;
    let edge = words::get::<u32>(pool, paper::END);
    Ok(homing::go_home(pool, edge))
}
