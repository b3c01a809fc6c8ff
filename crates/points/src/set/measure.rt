// What a set answers.
ghost use Rattle.std.specs.Prelude.{◌≡◌, ℕ, ◌≤◌, true, false, Decides};
ghost use Rattle.points.specs.Sets.{member, counted, last_of, is_empty, subset, size, greatest, same_set, same_set_per, same_set_equivalence};

use super::PointSet;
use crate::point::Point;

impl PointSet {
    // Whether the point is a member.
    pub fn contains(self, point: Point) -> bool
        ensures { result ≡ member self point.number }
    {
        !self.intersection(PointSet::from(point)).is_empty()
    }

    // Whether there is no member.
    #[tactic(auto, using(crate::proofs::Members::empty_decides), unfolding(crate::specs::Sets::is_empty))]
    pub fn is_empty(self) -> bool
        ensures value { result ≡ is_empty self }
        ensures members { Decides result ((p : ℕ) → member self p ≡ false) }
    {
        self.bits == 0
    }

    // Whether each member is one of the other set too.
    #[tactic(auto, using(crate::proofs::Members::subset_decides), unfolding(crate::specs::Sets::subset))]
    pub fn is_subset(self, other: PointSet) -> bool
        ensures value { result ≡ subset self other }
        ensures members { Decides result ((p : ℕ) → member self p ≡ true → member other p ≡ true) }
    {
        self.bits & other.bits == self.bits
    }

    // How many members there are.
    #[tactic(auto, using(crate::proofs::Sizes::sizes))]
    pub fn size(self) -> u32
        ensures value { result ≡ size self }
        ensures members { result ≡ counted (member self) 64 }
        ensures bound { result ≤ 64 }
    {
        self.bits.count_ones()
    }

    // The greatest member, or 0 where there is none. No `Option`: 0 lies below each point, so a bound on it is one comparison.
    #[tactic(auto, using(crate::proofs::Sizes::sizes), unfolding(crate::specs::Sets::greatest))]
    pub fn greatest(self) -> u32
        ensures value { result ≡ greatest self }
        ensures members { result ≡ last_of (member self) 64 }
        ensures bound { result ≤ 64 }
    {
        64 - self.bits.leading_zeros()
    }
}

// By hand, as `PartialEq` is: a derived `Eq` was tried, and its law did not close over a definition that stays shut.
impl Eq for PointSet {
    ghost laws = { same_set_equivalence };
}

// Two sets are equal where they have the same members. Written by hand: a derived `eq` says that the words are equal, and nothing of
// the members.
impl PartialEq for PointSet {
    ghost eq = { same_set };

    ghost laws = { same_set_per };

    #[tactic(auto, using(crate::proofs::Members::same_set_decides, crate::proofs::Members::same_set_members), unfolding(crate::specs::Sets::same_set))]
    fn eq(&self, other: &PointSet) -> bool
        ensures value { result ≡ same_set self.now other.now }
        ensures same { Decides result (self.now ≡ other.now) }
        ensures members { Decides result ((p : ℕ) → member self.now p ≡ member other.now p) }
    {
        self.bits == other.bits
    }
}
