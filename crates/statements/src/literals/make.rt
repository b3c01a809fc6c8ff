// Sets of literals from points and from signed numbers.
ghost use Rattle.std.specs.Prelude.{◌≡◌, ◌≢◌, ◌==◌, ℕ, true, not, ◌&&◌, ◌||◌, [], ◌∷◌, ℤ, neg_ℤ, if◌then◌else◌, Ok, Err, MatchOption, MatchResult};
ghost use Rattle.points.specs.Sets.{member};
ghost use Rattle.statements.specs.Literals.{names, point_of, signed, same_number, listed, clear, bare, opposed, resolvent};
ghost use Rattle.statements.specs.Making.{are_literals, all_asserted, all_denied, extended, made, make_refusal};
ghost use Rattle.statements.specs.declared.fault.MakeFault.TheVariants.{Magnitude, Opposed};

use super::{Literal, LiteralSet};
use crate::fault::MakeFault;
use points::{Point, PointSet};

// The literal that a signed number stands for; refused where the magnitude is not from 1 to 64.
impl TryFrom<i32> for Literal {
    type Error = MakeFault;

    ghost try_from_gives = { λ n r. MatchResult r (λ l. signed l ≡ n) (λ e. (make_refusal e).1 (n ∷ [])) };

    #[tactic(auto, unfolding(crate::specs::Making::are_literals))]
    fn try_from(number: i32) -> Result<Literal, MakeFault> {
        let point = Point::new(number.unsigned_abs()).ok_or(MakeFault::Magnitude)?;
        if number < 0 {
            Ok(Literal::Negative(point))
        } else {
            Ok(Literal::Positive(point))
        }
    }
}

impl LiteralSet {
    // The set of no literals. No `Default`, as for sets of points.
    #[tactic(auto, using(crate::specs::LiteralLaws::same_literals), unfolding(crate::specs::Literals::bare))]
    pub fn empty() -> LiteralSet
        ensures { result ≡ bare }
    {
        let none = PointSet::empty();
        LiteralSet {
            yes: none,
            no: none,
        }
    }

    // The set of these literals, or nothing where a point is named both ways.
    #[tactic(auto, using(crate::specs::LiteralLaws::clear_none))]
    pub(crate) fn of(yes: PointSet, no: PointSet) -> Option<LiteralSet>
        ensures { result ≡ clear yes no }
    {
        if yes.intersection(no).is_empty() {
            Some(LiteralSet { yes, no })
        } else {
            None
        }
    }

    // The points that the two sets name oppositely.
    pub fn opposed_points(self, other: LiteralSet) -> PointSet
        ensures { (p : ℕ) → member result p ≡ opposed self other p }
    {
        self.yes
            .intersection(other.no)
            .union(self.no.intersection(other.yes))
    }

    // All literals of the two sets but those on the point, or nothing where a point would be named both ways.
    #[tactic(auto, using(crate::proofs::PairLaws::resolved_as))]
    pub fn resolvent(self, other: LiteralSet, point: Point) -> Option<LiteralSet>
        ensures value { result ≡ resolvent self other point.number }
        ensures literals { MatchOption result ((q : ℕ) × (q ≢ point.number) × (opposed self other q ≡ true)) (λ s. (z : ℤ) → names s z ≡ ((names self z || names other z) && not (point_of z == point.number))) }
    {
        let yes = self.yes.union(other.yes).without(point);
        let no = self.no.union(other.no).without(point);
        LiteralSet::of(yes, no)
    }

    // This set with one more literal; refused where its denial is in the set.
    #[tactic(auto, using(crate::proofs::MakeLaws::extends))]
    pub fn with(self, literal: Literal) -> Result<LiteralSet, MakeFault>
        ensures value { result ≡ extended self (signed literal) }
        ensures literals { MatchResult result (λ s. (z : ℤ) → names s z ≡ (names self z || same_number z (signed literal))) (λ e. (e ≡ Opposed) × (names self (neg_ℤ (signed literal)) ≡ true)) }
    {
        let extended = match literal {
            Literal::Positive(point) => LiteralSet::of(self.yes.with(point), self.no),
            Literal::Negative(point) => LiteralSet::of(self.yes, self.no.with(point)),
        };
        extended.ok_or(MakeFault::Opposed)
    }

    // The set of the literals that the numbers stand for. Refused where the magnitude of one of them is not from 1 to 64, and else
    // where a point is named both ways. No `TryFrom`, for which a caller would have to turn an array into a slice by hand.
    #[tactic(auto, using(crate::proofs::MakeLaws::makes))]
    pub fn make(numbers: &[i32]) -> Result<LiteralSet, MakeFault>
        ensures value { result ≡ made numbers.now }
        ensures literals { MatchResult result (λ s. (z : ℤ) → names s z ≡ listed numbers.now z) (λ e. (make_refusal e).1 numbers.now) }
    {
        let (yes, no) = sorted(numbers)?;
        LiteralSet::of(yes, no).ok_or(MakeFault::Opposed)
    }
}

// The points that the numbers name as they are, and the points that they deny.
#[tactic(auto, using(crate::proofs::MakeLaws::sorting), unfolding(crate::specs::Making::are_literals, crate::specs::Making::all_asserted, crate::specs::Making::all_denied))]
fn sorted(numbers: &[i32]) -> Result<(PointSet, PointSet), MakeFault>
    ensures { result ≡ (if are_literals numbers.now then Ok (all_asserted numbers.now, all_denied numbers.now) else Err Magnitude) }
{
    let mut yes = PointSet::empty();
    let mut no = PointSet::empty();
    for number in numbers {
        match Literal::try_from(*number)? {
            Literal::Positive(point) => yes = yes.with(point),
            Literal::Negative(point) => no = no.with(point),
        }
    }
    Ok((yes, no))
}
