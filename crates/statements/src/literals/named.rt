// The points of a set of literals.
ghost use Rattle.std.specs.Prelude.{◌≡◌, ◌||◌, ℕ};
ghost use Rattle.points.specs.Assignments.{says};
ghost use Rattle.points.specs.Sets.{member};
ghost use Rattle.statements.specs.Literals.{named, true_at};

use super::LiteralSet;
use points::{Assignment, PointSet};

impl LiteralSet {
    // The points that the set names, either way: one for each literal.
    pub fn named(self) -> PointSet
        ensures value { result ≡ named self }
        ensures members { (p : ℕ) → member result p ≡ (member self.yes p || member self.no p) }
    {
        self.yes.union(self.no)
    }

    // The points of the literals that are true.
    pub fn true_points(self, assignment: &Assignment) -> PointSet
        ensures { (p : ℕ) → member result p ≡ true_at self (says assignment.now) p }
    {
        let yes = assignment.yes_points();
        self.yes.intersection(yes).union(self.no.difference(yes))
    }
}
