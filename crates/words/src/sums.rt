// Sums and differences of 32 bits.
ghost use Rattle.std.specs.Prelude.{◌≡◌};
ghost use Rattle.words.specs.Sums.{plus as plus-of, minus as minus-of};

pub fn plus(a: u32, b: u32) -> u32
    ensures { result ≡ plus-of a b }
{
    a.wrapping_add(b)
}

pub fn minus(a: u32, b: u32) -> u32
    ensures { result ≡ minus-of a b }
{
    a.wrapping_sub(b)
}
