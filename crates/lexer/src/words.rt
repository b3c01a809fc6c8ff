// The words of a text, one after another.
ghost use Rattle.std.specs.Prelude.{◌≡◌, [], drop, MatchOption};
ghost use Rattle.std.specs.Iterator.{item_count};
ghost use Rattle.lexer.specs.Text.{words};
ghost use Rattle.lexer.specs.Cuts.{cuts_at};
ghost use Rattle.lexer.specs.Parts.{words_left, StartsAt, NextWord};

use crate::part::Part;
use crate::pieces::{Cut, first_at, piece_end};

// The words of a text at `at` or later. After each word `at` is where that word ends. The whole text is held, and not the rest of it,
// since a part comes with its place in the text.
#[derive(Debug, Drop)]
pub struct Words<'a> {
    text: &'a [u8],
    at: usize,
    cut: Cut,
}

impl<'a> Words<'a> {
    // The words of the text at `at` or later.
    pub fn new(text: &'a [u8], at: usize, cut: Cut) -> Words<'a>
        ensures text { result.text ≡ text.entry }
        ensures at { result.at ≡ at }
        ensures cut { result.cut ≡ cut }
        ensures left { words_left result ≡ words (cuts_at cut) at (drop at text.now) }
    {
        Words { text, at, cut }
    }

    // Where the first word that is left begins, or `None` where only bytes that cut are left.
    fn next_start(&self) -> Option<usize>
        ensures { MatchOption result (words_left self.now ≡ []) (λ start. StartsAt self.now start) }
    {
        let cut = self.cut;
        let start = first_at(self.text, self.at, |byte| !cut.cuts(*byte));
        if start >= self.text.len() {
            return None;
        }
        Some(start)
    }
}

impl<'a> Iterator for Words<'a> {
    type Item = Part<'a>;

    ghost next_gives = { NextWord };

    ghost remaining = { item_count words_left };

    // The first word that is left, or `None` where only bytes that cut are left. Inlined, so that a caller's cut is known in the loops
    // over the bytes.
    #[inline]
    fn next(&mut self) -> Option<Part<'a>> {
        let start = self.next_start()?;
        let end = piece_end(self.text, start, self.cut);
        self.at = end;
        Some(Part::cut(self.text, start, end))
    }
}
