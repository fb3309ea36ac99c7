// Cursors over what a text still has.
ghost use Rattle.std.specs.Prelude.{◌≡◌, ℕ, ◌+◌, ◌^◌, ◌<◌, List, length, MatchOption};
ghost use Rattle.std.specs.Iterator.{YieldsFirstRef, item_count, at_most};
ghost use Rattle.lines.specs.Numbers.{number, IsNext, IsNoNumber};
ghost use Rattle.lines.specs.Words.{words, NextLine};

use std::marker::Model;

// The words of a line that are still to come.
#[derive(Drop)]
pub struct Words<'a> {
    rest: &'a [u8],
}

impl<'a> Model for Words<'a> {
    ghost Value = { List (List ℕ) };

    ghost view = { λ w. words w.rest.now };
}

impl<'a> Words<'a> {
    pub fn new(line: &'a [u8]) -> Self
        ensures { result ≡ words line.now }
    {
        Words { rest: line }
    }

    /// The next word, where it is a number below 2^32; else None, and no word is passed over.
    #[inline]
    pub fn number(&mut self) -> Option<u32>
        ensures { MatchOption result ((self.new ≡ self.old) × IsNoNumber self.old) (λ n. IsNext number self.old n self.new) }
    {
        let (number, others) = crate::first_number(self.rest)?;
        self.rest = others;
        Some(number)
    }
}

impl<'a> Iterator for Words<'a> {
    type Item = &'a [u8];

    ghost next_gives = { YieldsFirstRef (λ ws. ws) };

    ghost remaining = { item_count (λ ws. ws) };

    fn next(&mut self) -> Option<&'a [u8]> {
        let (word, rest) = crate::word(self.rest)?;
        self.rest = rest;
        Some(word)
    }
}

// The lines of a text that are still to come, each with its number. `split` would give one more, empty, where a newline
// ends the text.
#[derive(Drop)]
pub struct Lines<'a> {
    // The number of the next line.
    pub number: usize,
    pub text: &'a [u8],
    ghost within: { number + length text.now < 2 ^ 64 },
}

impl<'a> Lines<'a> {
    // Lines are counted from 1.
    pub fn new(text: &'a [u8]) -> Self
        ensures { (result.number ≡ 1) × (result.text.now ≡ text.now) }
    {
        Lines { number: 1, text }
    }
}

impl<'a> Iterator for Lines<'a> {
    type Item = (usize, &'a [u8]);

    ghost next_gives = { λ s r t. NextLine s.text.now s.number r t.text.now t.number };

    ghost remaining = { λ s. at_most (length s.text.now) };

    #[tactic(auto, unfolding(crate::specs::Words::lines))]
    fn next(&mut self) -> Option<(usize, &'a [u8])> {
        let (line, text) = crate::line(self.text)?;
        let number = self.number;
        *self = Lines {
            number: number + 1,
            text,
        };
        Some((number, line))
    }
}
