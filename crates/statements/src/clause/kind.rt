ghost use Rattle.std.specs.Prelude.{refl};
ghost use Rattle.statements.specs.Clauses.{clause_kind, Fits};
ghost use Rattle.statements.specs.ClauseLaws.{clause_sound, clause_exact};

use super::Clause;
use crate::statement::Statement;
use points::{Assignment, Point};

impl Statement for Clause {
    const KIND: u32 = 1;

    ghost KIND = { 1 };

    ghost kind = { clause_kind };

    ghost fits = { Fits };

    ghost sound = { clause_sound };

    ghost exact = { clause_exact };

    ghost numbered = { refl };

    fn length(&self) -> u32 {
        self.literals.named().size()
    }

    fn last(&self) -> u32 {
        self.literals.named().greatest()
    }

    #[tactic(auto, using(crate::specs::ClauseLaws::holds_set))]
    fn holds(&self, assignment: &Assignment) -> bool {
        let satisfied = self.literals.true_points(assignment);
        !satisfied.is_empty()
    }

    fn impossible(&self) -> bool {
        self.literals.named().is_empty()
    }

    fn covers(&self, other: &Clause) -> bool {
        self.literals.is_subset(other.literals)
    }

    fn combine(&self, other: &Clause, point: Point) -> Option<Clause> {
        if !self.literals.opposed_points(other.literals).contains(point) {
            return None;
        }
        let literals = self.literals.resolvent(other.literals, point)?;
        Some(Clause { literals })
    }
}
