// Recalling: the record of a piston, as a part of the pool.
ghost use Rattle.std.specs.Prelude.{◌≡◌, ◌≤◌, length};
ghost use Rattle.bank.specs.Calls as call;
ghost use Rattle.bank.specs.Recalls.{Finds, Cuts, Recalls};

use crate::{naming, records};
use paper::Refusal;

// Where a record starts and ends in the pool, and why recalling it is refused, if it is. No Result: a refused recall has a part too, the
// empty one at the pool's end (theorem refused-recall).
#[derive(Clone, Copy, Debug, PartialEq, Eq)]
pub struct Place {
    pub refusal: Option<Refusal>,
    pub from: usize,
    pub to: usize,
}

// The empty part at the pool's end.
fn nothing(pool: &[u8], refusal: Option<Refusal>) -> Place
    ensures { result ≡ call.nothing pool.now refusal }
{
    let end = pool.len();
    Place {
        refusal,
        from: end,
        to: end,
    }
}

// Where the record of a piston stands.
pub fn find(pool: &[u8], bank: &[u32; 32], piston: u32) -> Place
    ensures { Finds pool.now bank.now piston result }
{
    let long = match naming::asked(pool, bank, piston) {
        Ok(long) => long,
        Err(why) => return nothing(pool, Some(why)),
    };
    let at = piston as usize;
    let offset = bank[at];
    if offset == 0 {
        return nothing(pool, None);
    }
    let from = offset as usize;
    let end = from + long as usize;
    let Some(size) = records::record_in(&pool[from..end]) else {
        return nothing(pool, Some(Refusal::NotNamed));
    };
    Place {
        refusal: None,
        from,
        to: from + size as usize,
    }
}

// How many bytes the record of a piston has, its byte of kind included, 0 where it is empty: for a caller who has the bank, and so knows
// that the record starts at the piston's offset.
pub fn ask(pool: &[u8], bank: &[u32; 32], piston: u32) -> Result<u32, Refusal>
    ensures { result ≡ call.asked (call.recall pool.now bank.now piston) }
{
    let place = find(pool, bank, piston);
    if let Some(why) = place.refusal {
        return Err(why);
    }
    Ok((place.to - place.from) as u32)
}

// A recalled record, and why the call is refused, if it is.
#[derive(Clone, Copy)]
pub struct Recalled<'a> {
    pub refusal: Option<Refusal>,
    pub part: &'a [u8],
}

// The part that starts and ends at a place within the pool.
fn cut(pool: &[u8], place: Place) -> &[u8]
    requires { (place.from ≤ place.to) × (place.to ≤ length pool.now) }
    ensures { Cuts result pool.entry place }
{
    &pool[place.from..place.to]
}

// The record of a piston as a part of the pool, and why the call is refused, if it is; the empty part at the pool's end where there is none.
pub fn recall<'a>(pool: &'a [u8], bank: &[u32; 32], piston: u32) -> Recalled<'a>
    ensures { Recalls result pool.entry bank.now piston }
{
    let place = find(pool, bank, piston);
    Recalled {
        refusal: place.refusal,
        part: cut(pool, place),
    }
}
