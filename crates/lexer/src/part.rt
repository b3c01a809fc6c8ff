// A part of a text.
ghost use Rattle.std.specs.Prelude.{◌≡◌, ◌+◌, ◌^◌, ◌<◌, ◌≤◌, length};
ghost use Rattle.lexer.specs.Cuts.{part};

// A part of a text, with the place of its first byte.
#[derive(Clone, Copy, Debug, PartialEq, Eq)]
pub struct Part<'a> {
    pub start: usize,
    pub bytes: &'a [u8],
    // So that the place after its last byte fits in a `usize`.
    pub ghost fits: { start + length bytes.now < 2 ^ 64 },
}

impl<'a> Part<'a> {
    // The bytes of the text from `start` up to, not including, `end`. Nothing else cuts a text by two places.
    pub(crate) fn cut(text: &'a [u8], start: usize, end: usize) -> Part<'a>
        requires ordered { start ≤ end }
        requires inside { end ≤ length text.now }
        ensures place { result.start ≡ start }
        ensures bytes { result.bytes.now ≡ part start end text.now }
    {
        Part {
            start,
            bytes: &text[start..end],
        }
    }

    // The place after its last byte.
    pub fn end(self) -> usize
        ensures { result ≡ self.entry.start + length self.entry.bytes.now }
    {
        self.start + self.bytes.len()
    }
}
