ghost use Rattle.std.specs.Prelude.{◌≡◌, ◌≤◌, MatchOption};

// The number of points that a case can have. Definitions and contracts write 64, where a reader wants the number.
pub const MOST: u32 = 64;

// A point of a case: a number from 1 to 64.
#[derive(Clone, Copy, Debug, PartialEq, Eq)]
pub struct Point {
    number: u32,
    ghost positive: { 1 ≤ number },
    ghost small: { number ≤ 64 },
}

impl Point {
    // The point of this number, or nothing where the number is not from 1 to 64. No `TryFrom`: a number can fail in one way only, so
    // an error type would say no more than nothing does.
    pub fn new(number: u32) -> Option<Point>
        ensures { MatchOption result (1 ≤ number → number ≤ 64 → ⊥) (λ p. p.number ≡ number) }
    {
        if number == 0 || number > MOST {
            return None;
        }
        Some(Point { number })
    }

    // The number of this point, from 1 to 64: a getter, like `NonZero::get`, and no conversion.
    pub fn number(self) -> u32
        ensures { result ≡ self.number }
    {
        self.number
    }
}
