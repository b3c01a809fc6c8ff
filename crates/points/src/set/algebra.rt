// Making sets, and joining them.
ghost use Rattle.std.specs.Prelude.{◌≡◌, ℕ, false, not, ◌&&◌, ◌||◌, ◌==◌};
ghost use Rattle.points.specs.Sets.{member, none, single, joined, common, without};

use super::PointSet;
use crate::point::Point;

impl PointSet {
    // The set of no points. No `Default`, which would not say that it is empty.
    #[tactic(auto, using(crate::proofs::Members::members), unfolding(crate::specs::Sets::member, crate::specs::Sets::none))]
    pub fn empty() -> PointSet
        ensures value { result ≡ none }
        ensures members { (p : ℕ) → member result p ≡ false }
    {
        PointSet { bits: 0 }
    }

    // The points of either set.
    #[tactic(auto, using(crate::proofs::Members::members), unfolding(crate::specs::Sets::member, crate::specs::Sets::joined))]
    pub fn union(self, other: PointSet) -> PointSet
        ensures value { result ≡ joined self other }
        ensures members { (p : ℕ) → member result p ≡ (member self p || member other p) }
    {
        PointSet {
            bits: self.bits | other.bits,
        }
    }

    // The points of both sets.
    #[tactic(auto, using(crate::proofs::Members::members), unfolding(crate::specs::Sets::member, crate::specs::Sets::common))]
    pub fn intersection(self, other: PointSet) -> PointSet
        ensures value { result ≡ common self other }
        ensures members { (p : ℕ) → member result p ≡ (member self p && member other p) }
    {
        PointSet {
            bits: self.bits & other.bits,
        }
    }

    // The points of this set that the other lacks.
    #[tactic(auto, using(crate::proofs::Members::members), unfolding(crate::specs::Sets::member, crate::specs::Sets::without))]
    pub fn difference(self, other: PointSet) -> PointSet
        ensures value { result ≡ without self other }
        ensures members { (p : ℕ) → member result p ≡ (member self p && not (member other p)) }
    {
        PointSet {
            bits: self.bits & !other.bits,
        }
    }

    // This set with one more point.
    pub fn with(self, point: Point) -> PointSet
        ensures { result ≡ joined self (single point.number) }
    {
        self.union(PointSet::from(point))
    }

    // This set without one point.
    pub fn without(self, point: Point) -> PointSet
        ensures { result ≡ without self (single point.number) }
    {
        self.difference(PointSet::from(point))
    }
}

// The set of one point.
impl From<Point> for PointSet {
    ghost from_gives = { λ p s. (s ≡ single p.number) × ((q : ℕ) → member s q ≡ (q == p.number)) };

    #[tactic(auto, using(crate::proofs::Members::members))]
    fn from(point: Point) -> PointSet
        ensures value { result ≡ single point.number }
        ensures members { (p : ℕ) → member result p ≡ (p == point.number) }
    {
        PointSet {
            bits: 1 << (point.number() - 1),
        }
    }
}
