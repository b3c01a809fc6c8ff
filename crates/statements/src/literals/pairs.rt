// Two sets of literals together.
ghost use Rattle.std.specs.Prelude.{◌≡◌, ℕ, true, not, ◌&&◌, ◌||◌, ℤ, Decides};
ghost use Rattle.points.specs.Sets.{member};
ghost use Rattle.statements.specs.Literals.{names, point_of, within, lacks, opposed, cancelled};

use super::LiteralSet;
use points::PointSet;

impl LiteralSet {
    // Whether each literal of this set is in the other.
    #[tactic(auto, using(std::proofs::lemmas::Bool::Decides::nat_tests))]
    pub fn is_subset(self, other: LiteralSet) -> bool
        ensures value { result ≡ within self other }
        ensures literals { Decides result ((z : ℤ) → names self z ≡ true → names other z ≡ true) }
    {
        self.yes.is_subset(other.yes) && self.no.is_subset(other.no)
    }

    // The points of the literals that the other set lacks.
    pub fn lacking_points(self, other: LiteralSet) -> PointSet
        ensures { (p : ℕ) → member result p ≡ lacks self other p }
    {
        self.yes
            .difference(other.yes)
            .union(self.no.difference(other.no))
    }

    // All literals of the two sets but those on the points that the two name oppositely.
    #[tactic(auto, using(crate::proofs::PairLaws::cancels), unfolding(crate::specs::Literals::cancelled))]
    pub fn cancelled(self, other: LiteralSet) -> LiteralSet
        ensures value { result ≡ cancelled self other }
        ensures literals { (z : ℤ) → names result z ≡ ((names self z || names other z) && not (opposed self other (point_of z))) }
    {
        let yes = self.yes.union(other.yes);
        let no = self.no.union(other.no);
        LiteralSet {
            yes: yes.difference(no),
            no: no.difference(yes),
        }
    }
}
