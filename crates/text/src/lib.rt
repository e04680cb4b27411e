// A page: lent bytes, and the place where the next text goes. Putting is total: past the end nothing is put, and the place stays.
#![tactic(auto)]

ghost use Rattle.std.specs.Prelude.{[], ◌∷◌};
ghost use Rattle.text.specs.Lent.{Puts};
ghost use Rattle.text.specs.Numeral.{numeral as numeral_of};

use itoa::Buffer;

// No `fmt::Write` for `write!`, which may fail for all that its contract says: `tape::run` promises each byte of a line without fail.
#[derive(Drop)]
pub struct Page<'a> {
    pub out: &'a mut [u8],
    pub at: usize,
}

impl Page<'_> {
    // Puts one byte.
    pub fn put_one(&mut self, b: u8)
        ensures { Puts self.old (b ∷ []) self.new }
    {
        if self.at < self.out.len() {
            self.out[self.at] = b;
            self.at += 1;
        }
    }

    // Puts the bytes of a text, one after the other; by their places, so that the edit first_byte_left_out is refused for the byte and not for its form.
    pub fn put(&mut self, text: &[u8])
        ensures { Puts self.old text.now self.new }
    {
        for i in 0..text.len() {
            self.put_one(text[i]);
        }
    }

    // Puts a number in decimal.
    pub fn numeral(&mut self, v: u32)
        ensures { Puts self.old (numeral_of v) self.new }
    {
        self.put(Buffer::new().format(v).as_bytes());
    }
}
