// A text cut into pieces at the bytes of one kind.
ghost use Rattle.std.specs.Prelude.{◌≡◌, ℕ, Bool, ◌+◌, ◌<◌, ◌≤◌, true, false, length, drop, slice_index};
ghost use Rattle.lexer.specs.Text.{run};
ghost use Rattle.lexer.specs.Cuts.{cuts_at, WordAt, ComputesTest};

// The bytes that cut a text: those between its lines, between the words of a header line, or between its tokens.
#[derive(Clone, Copy, Debug, PartialEq, Eq)]
pub enum Cut {
    LineEnd,
    Blank,
    Space,
}

impl Cut {
    // Whether `byte` is one of the bytes that cut.
    pub(crate) fn cuts(self, byte: u8) -> bool
        ensures { result ≡ cuts_at self byte }
    {
        match self {
            Cut::LineEnd => byte == b'\n',
            Cut::Blank => byte == b' ' || byte == b'\t',
            Cut::Space => byte == b' ' || byte == b'\t' || byte == b'\r' || byte == b'\n',
        }
    }
}

// Where the first byte for which `found` holds stands, at `from` or later: the end of the text where there is none, and `from` where
// the text ends before it. The end is a place like any other, at which the last piece ends, so this is no `Option`.
pub(crate) fn first_at<F: FnMut(&u8) -> bool>(text: &[u8], from: usize, found: F) -> usize
    requires { F.IsAlwaysCallable found }
    ensures { (test : ℕ → Bool) → ComputesTest F.step found test → result ≡ from + run test (drop from text.now) }
{
    let rest = text.get(from..).unwrap_or(&[]);
    from + rest.iter().position(found).unwrap_or(rest.len())
}

// Where the piece that begins at `from` ends: at the first byte that cuts, or at the end of the text. No method of a struct, since the
// iterators over words and over lines, which hold different things, stand on it.
pub(crate) fn piece_end(text: &[u8], from: usize, cut: Cut) -> usize
    ensures value { result ≡ from + run (cuts_at cut) (drop from text.now) }
    ensures inside { from ≤ length text.now → result ≤ length text.now }
    ensures stops { result < length text.now → cuts_at cut (slice_index text.now result) ≡ true }
    ensures word { from < length text.now → cuts_at cut (slice_index text.now from) ≡ false → WordAt (cuts_at cut) text.now from result }
{
    first_at(text, from, |byte| cut.cuts(*byte))
}
