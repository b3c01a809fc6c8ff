ghost use Rattle.std.specs.Prelude.{◌≡◌, ℕ, ◌||◌, ◌==◌};
ghost use Rattle.points.specs.Assignments.{says};
ghost use Rattle.points.specs.Sets.{member};

use super::Assignment;
use crate::point::Point;
use crate::set::PointSet;

impl Assignment {
    // Yes to these points, and no to every other. No `From`, which would not say what the points are.
    pub fn new(yes: PointSet) -> Assignment
        ensures { (p : ℕ) → says result p ≡ member yes p }
    {
        Assignment { yes }
    }

    // The same, but yes to this point.
    pub fn with_yes(self, point: Point) -> Assignment
        ensures { (p : ℕ) → says result p ≡ (says self p || p == point.number) }
    {
        Assignment {
            yes: self.yes.union(PointSet::from(point)),
        }
    }

    // Whether the answer to this point is yes.
    pub fn is_yes(self, point: Point) -> bool
        ensures { result ≡ says self point.number }
    {
        self.yes.contains(point)
    }

    // The points whose answer is yes: a getter, and no conversion.
    pub fn yes_points(self) -> PointSet
        ensures { result ≡ self.yes }
    {
        let Assignment { yes } = self;
        yes
    }
}
