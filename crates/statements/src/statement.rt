ghost use Rattle.std.specs.Prelude.{◌≡◌, ℕ, Bool};
ghost use Rattle.points.specs.Assignments.{says};
ghost use Rattle.statements.specs.Kind.{Kind, Sound, Exact};

use points::{Assignment, Point};

// A kind of statement: six questions, each answered from what it is given alone, and a kind number.
pub trait Statement: Copy {
    // The number of the kind, from 0 to 63, which its refutations carry.
    const KIND: u32;

    // The same number, as clauses and laws name it.
    ghost KIND: { ℕ };

    // What the kind answers.
    ghost kind: { Kind Self };

    // What a statement means: the set of the assignments that fit it.
    ghost fits: { Self → (ℕ → Bool) → Type 0 };

    // How many points the statement names.
    fn length(&self) -> u32
        ensures { result ≡ kind.length self.now };

    // The greatest point named, or 0, which lies below each point: an `Option` would make two cases of every bound on it.
    fn last(&self) -> u32
        ensures { result ≡ kind.core.last self.now };

    // Whether the assignment fits the statement.
    fn holds(&self, assignment: &Assignment) -> bool
        ensures { result ≡ kind.holds self.now (says assignment.now) };

    // Whether no assignment fits the statement.
    fn impossible(&self) -> bool
        ensures { result ≡ kind.core.impossible self.now };

    // Whether every assignment that fits this statement fits the other.
    fn covers(&self, other: &Self) -> bool
        ensures { result ≡ kind.covers self.now other.now };

    // A statement that follows from the two by cancelling the point, or nothing.
    fn combine(&self, other: &Self, point: Point) -> Option<Self>
        ensures { result ≡ kind.core.combine self.now other.now point.number };

    // The laws that checking a refutation rests on.
    ghost sound: { Sound kind.core fits };

    // The laws that settling rests on besides.
    ghost exact: { Exact kind fits };

    // The number is that of the kind.
    ghost numbered: { KIND ≡ kind.core.number };
}
