ghost use Rattle.std.specs.Prelude.{◌≡◌, ℤ, MatchResult};
ghost use Rattle.statements.specs.Literals.{names, listed};
ghost use Rattle.statements.specs.Clauses.{as_clause};
ghost use Rattle.statements.specs.Making.{made, make_refusal};

use super::Clause;
use crate::fault::MakeFault;
use crate::literals::LiteralSet;

// The clause of these literals.
impl From<LiteralSet> for Clause {
    ghost from_gives = { λ s c. c.literals ≡ s };

    fn from(literals: LiteralSet) -> Clause {
        Clause { literals }
    }
}

impl Clause {
    // The clause of the literals that the numbers stand for. Refused where the magnitude of one of them is not from 1 to 64, and
    // else where a point is named both ways. No `TryFrom`, as for `LiteralSet::make`.
    pub fn make(numbers: &[i32]) -> Result<Clause, MakeFault>
        ensures value { result ≡ as_clause (made numbers.now) }
        ensures literals { MatchResult result (λ c. (z : ℤ) → names c.literals z ≡ listed numbers.now z) (λ e. (make_refusal e).1 numbers.now) }
    {
        Ok(Clause::from(LiteralSet::make(numbers)?))
    }
}
