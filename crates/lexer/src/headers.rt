// The header line of a clause file.
ghost use Rattle.std.specs.Prelude.{◌≡◌, ◌+◌, ◌≤◌, length, IfSome, None, MatchOption, ◌==◌};
ghost use Rattle.lexer.specs.Text.{lines_from};
ghost use Rattle.lexer.specs.Cuts.{part};
ghost use Rattle.lexer.specs.Headers.{headed, kind_of, begins_with, fields_of, header_of, HeaderAt};

use crate::lines::Lines;
use crate::numbers::numeral;
use crate::part::Part;
use crate::pieces::Cut;
use crate::words::Words;

// What a header line says. `points_at` is where the number of points stands in the line. That both numbers are at most 99,999 is no
// ghost field, which would ask it of whoever makes a header.
#[derive(Clone, Copy, Debug, PartialEq, Eq)]
pub struct Header {
    pub points: u32,
    pub points_at: usize,
    pub clauses: u32,
}

// What a line is, by its first letter: a comment begins with `c`, and a problem line, the only one that can be a header, with `p`.
#[derive(Clone, Copy, Debug, PartialEq, Eq)]
enum LineKind {
    Comment,
    Problem,
    Other,
}

// The kind of a line.
fn line_kind(line: &[u8]) -> LineKind
    ensures { result ≡ kind_of line.now }
{
    match line {
        [b'c', ..] => LineKind::Comment,
        [b'p', ..] => LineKind::Problem,
        _ => LineKind::Other,
    }
}

// Whether nothing follows the word on its line.
fn ends_line(word: Part, line: &[u8]) -> bool
    ensures { result ≡ (word.entry.start + length word.entry.bytes.now == length line.now) }
{
    word.end() == line.len()
}

impl Header {
    // What a header line says, or `None` where the line is no header.
    #[tactic(auto, unfolding(crate::specs::Headers::header_of))]
    pub fn parse(line: &[u8]) -> Option<Header>
        ensures value { result ≡ header_of line.now }
        ensures bounds { IfSome result (λ h. (h.points ≤ 99999) × (h.points_at ≤ length line.now) × (h.clauses ≤ 99999)) }
    {
        match line_kind(line) {
            LineKind::Problem => Header::from_words(line),
            _ => None,
        }
    }

    // What the words of a line say, where no blank follows the last.
    #[tactic(auto, unfolding(crate::specs::Headers::fields_of))]
    fn from_words(line: &[u8]) -> Option<Header>
        ensures value { result ≡ fields_of line.now }
        ensures bounds { IfSome result (λ h. (h.points ≤ 99999) × (h.points_at ≤ length line.now) × (h.clauses ≤ 99999)) }
    {
        let mut words = Words::new(line, 0, Cut::Blank);
        let letter = words.next()?;
        let format = words.next()?;
        let points = words.next()?;
        let clauses = words.next()?;
        if !ends_line(clauses, line) {
            return None;
        }
        if letter.bytes != b"p".as_slice() || format.bytes != b"cnf".as_slice() {
            return None;
        }
        Some(Header {
            points: numeral(points.bytes)?,
            points_at: points.start,
            clauses: numeral(clauses.bytes)?,
        })
    }
}

// Whether a line is a comment.
fn is_comment(line: &[u8]) -> bool
    ensures { result ≡ begins_with 99 line.now }
{
    line_kind(line) == LineKind::Comment
}

// The first line that is no comment, or `None` where each line is one.
pub fn header_line(text: &[u8]) -> Option<Part<'_>>
    ensures line { MatchOption result (headed (lines_from 0 text.now) ≡ None) (λ l. HeaderAt text.now l.start (l.start + length l.bytes.now)) }
    ensures bytes { IfSome result (λ l. l.bytes.now ≡ part l.start (l.start + length l.bytes.now) text.now) }
{
    Lines::new(text).find(|line| !is_comment(line.bytes))
}
