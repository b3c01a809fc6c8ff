// The lines of a text, one after another.
ghost use Rattle.std.specs.Prelude.{◌≤◌, length};
ghost use Rattle.std.specs.Option.{ForSome};

use crate::part::Part;
use crate::pieces::{Cut, piece_end};

// The lines of a text that are left. `at` is where the next one begins, and `None` after the last. The whole text is held, as in
// `Words`.
#[derive(Debug, Drop)]
pub(crate) struct Lines<'a> {
    text: &'a [u8],
    at: Option<usize>,
    // So that the next line can be cut off.
    ghost inside: { ForSome at (λ i. i ≤ length text.now) },
}

impl<'a> Lines<'a> {
    ghost use Rattle.std.specs.Prelude.{◌≡◌};
    ghost use Rattle.lexer.specs.Text.{lines_from};
    ghost use Rattle.lexer.specs.Parts.{lines_left};

    // The lines of the text.
    pub(crate) fn new(text: &'a [u8]) -> Lines<'a>
        ensures { lines_left result ≡ lines_from 0 text.now }
    {
        Lines { text, at: Some(0) }
    }
}

impl<'a> Iterator for Lines<'a> {
    ghost use Rattle.std.specs.Iterator.{YieldsFirstBy, item_count};
    ghost use Rattle.lexer.specs.Parts.{lines_left, piece_of};

    type Item = Part<'a>;

    ghost next_gives = { YieldsFirstBy piece_of lines_left };

    ghost remaining = { item_count lines_left };

    // The next line. One follows it where a line end does.
    fn next(&mut self) -> Option<Part<'a>> {
        let start = self.at?;
        let end = piece_end(self.text, start, Cut::LineEnd);
        self.at = (end < self.text.len()).then_some(end + 1);
        Some(Part::cut(self.text, start, end))
    }
}
