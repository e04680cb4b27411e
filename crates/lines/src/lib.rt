// The lines of a run: "record number from 1, letter, refusal number, value (for S done: the seven figures)", with a space between.
#![tactic(auto)]

ghost use Rattle.std.specs.Prelude.{[], ◌∷◌};
ghost use Rattle.text.specs.Lent.{Puts};
ghost use Rattle.lines.specs.Lines.{begin_of, rest_of, line_of, answered, tallied};
ghost use Rattle.lines.specs.Printed.{Printed};

use paper::{Figures, Refusal};
use text::Page;

// How a line begins: the number of its record, and a letter.
#[derive(Clone, Copy, Debug, PartialEq, Eq)]
pub struct Head {
    pub nth: u32,
    pub letter: u8,
}

impl Head {
    fn begin(self, page: &mut Page)
        ensures { Puts page.old (begin_of self.nth self.letter) page.new }
    {
        page.numeral(self.nth);
        page.put(&[b' ', self.letter]);
    }

    // The two numbers as they stand in the line: it prints any two, as it always promised.
    pub fn line(self, page: &mut Page, refusal: u8, value: u32)
        ensures { Printed page.old (line_of self.nth self.letter (refusal ∷ value ∷ [])) page.new }
    {
        self.begin(page);
        rest(page, &[refusal as u32, value]);
    }

    pub fn answer(self, page: &mut Page, answer: Result<u32, Refusal>)
        ensures { Printed page.old (line_of self.nth self.letter (answered answer)) page.new }
    {
        match answer {
            Ok(value) => self.line(page, 0, value),
            Err(refusal) => self.line(page, u8::from(refusal), 0),
        }
    }

    pub fn figures(self, page: &mut Page, tally: Result<Figures, Refusal>)
        ensures { Printed page.old (line_of self.nth self.letter (tallied tally)) page.new }
    {
        match tally {
            Ok(f) => {
                self.begin(page);
                rest(
                    page,
                    &[
                        0,
                        f.held_blocks,
                        f.held_bytes,
                        f.free_small,
                        f.free_large,
                        f.remainder,
                        f.free_word,
                        f.largest,
                    ],
                );
            }
            Err(refusal) => self.line(page, u8::from(refusal), 0),
        }
    }
}

// Each number after a space, and the line's end.
fn rest(page: &mut Page, numbers: &[u32])
    ensures { Puts page.old (rest_of numbers.now) page.new }
{
    for v in numbers {
        page.put_one(b' ');
        page.numeral(*v);
    }
    page.put_one(b'\n');
}
