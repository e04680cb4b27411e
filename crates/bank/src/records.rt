// A record: one byte of kind, then a body whose length the kind fixes.
ghost use Rattle.std.specs.Prelude.{◌≡◌, ◌∷◌, length, suc};
ghost use Rattle.bank.specs.Calls.{no_record, refused};
ghost use Rattle.bank.specs.Records.{record_in};

use crate::kinds::Kind;
use paper::Refusal;

// Refused where a kind and a body make no record.
pub fn check(kind: u8, body: &[u8]) -> Result<(), Refusal>
    ensures { refused result ≡ no_record kind body.now }
{
    let Ok(known) = Kind::try_from(kind) else {
        return Err(Refusal::NoRecord);
    };
    if body.len() != known.body() as usize {
        return Err(Refusal::NoRecord);
    }
    Ok(())
}

// How many bytes of the payload are its record; nothing where none reads.
pub fn record_in(payload: &[u8]) -> Option<u32>
    ensures { result ≡ record_in payload.now }
{
    let Some(&number) = payload.first() else {
        return None;
    };
    let Ok(kind) = Kind::try_from(number) else {
        return None;
    };
    let size = 1 + kind.body();
    if payload.len() < size as usize {
        return None;
    }
    Some(size)
}

// Puts the byte of kind, then the body, at the start of a part.
pub fn write(part: &mut [u8], kind: u8, body: &[u8])
    ensures { length part.old ≡ suc (length body.now) → part.new ≡ kind ∷ body.now }
{
    if part.len() != 1 + body.len() {
        return;
    }
    part[0] = kind;
    // Not copy_from_slice: it goes by raw memory, which tools/translating does not put into C.
    for i in 0..body.len() {
        part[i + 1] = body[i];
    }
}
