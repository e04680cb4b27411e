// A set of starts as bits, one for each 8 bytes of a pool, in a list of 64-bit words. Total: a start past the end is in no set, and
// cannot be put in; nor is a number in it that is no multiple of 8.
#![tactic(auto)]

ghost use Rattle.std.specs.Prelude.{◌≡◌, eqb, ltb};
ghost use Rattle.marks.specs.Marks.{bit_at, put_bit_at};
ghost use Rattle.marks.specs.MarkSets.{bit_marks};

// Whether the start q is marked.
pub fn marked(m: &[u64], q: u32) -> bool
    ensures { result ≡ ltb 0 (bit_marks.has m.now q) }
{
    q % 8 == 0 && has(m, (q / 8) as usize)
}

// Marks the start q.
pub fn mark(m: &mut [u64], q: u32)
    ensures { m.new ≡ bit_marks.put m.old q }
{
    put_in(m, (q / 8) as usize);
}

// Takes the mark of the start q away.
pub fn unmark(m: &mut [u64], q: u32)
    ensures { m.new ≡ bit_marks.drop m.old q }
{
    take_out(m, (q / 8) as usize);
}

// Whether bit i is set.
fn has(s: &[u64], i: usize) -> bool
    ensures { result ≡ eqb (bit_at s.now i) 1 }
{
    let q = i / 64;
    q < s.len() && (s[q] >> (i % 64)) % 2 == 1
}

// Sets bit i.
fn put_in(s: &mut [u64], i: usize)
    ensures { s.new ≡ put_bit_at s.old i 1 }
{
    let q = i / 64;
    if q < s.len() {
        s[q] |= 1 << (i % 64);
    }
}

// Clears bit i.
fn take_out(s: &mut [u64], i: usize)
    ensures { s.new ≡ put_bit_at s.old i 0 }
{
    let q = i / 64;
    if q < s.len() {
        s[q] -= s[q] & (1 << (i % 64));
    }
}
