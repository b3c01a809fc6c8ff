// The tokens after the header.
ghost use Rattle.std.specs.Prelude.{◌≡◌, ◌≤◌, ℕ, length};
ghost use Rattle.points.specs.Sets.{greatest};
ghost use Rattle.statements.specs.Literals.{named};

use crate::fault::{Cause, Fault};
use cases::OpenCase;
use lexer::{Words, number};
use statements::{Clause, Literal, LiteralSet};

// A case that is being read into a lent table: how many clauses are announced, and the literals of the clause that is not finished.
#[derive(Drop)]
pub(crate) struct Reader<'a> {
    pub(crate) table: &'a mut [Clause],
    pub(crate) case: OpenCase,
    pub(crate) announced: usize,
    pub(crate) literals: LiteralSet,
    ghost rows: { case.filed ≤ length table.now },
    ghost known: { greatest (named literals) ≤ case.points },
}

impl<'a> Reader<'a> {
    ghost use Rattle.lexer.specs.Parts.{words_left};
    ghost use Rattle.dimacs.specs.Reading.{end_token};
    ghost use Rattle.dimacs.specs.Steps.{token_of, body_of, at_end_of, Steps, Adds, Walks, Finishes};

    // Takes each of the tokens, wherever the text ends. A fault names the place of the token's first byte.
    pub(crate) fn tokens(&mut self, tokens: Words) -> Result<(), Fault>
        ensures { (end : ℕ) → Walks (body_of self.old end (words_left tokens.entry)) (at_end_of self.old end) self.old self.new result }
    {
        for word in tokens {
            // `map_err` was tried: what its closure says in a loop has no name that an answer can cite, and the proof did not close
            if let Err(cause) = self.token(word.bytes) {
                return Err(cause.at(word.start));
            }
        }
        Ok(())
    }

    // Takes one token: a 0 ends the clause, any other number is a literal of it. The 0 is the format's own sign, so it stays a number.
    #[tactic(auto, using(crate::proofs::StepLaws::filed_count), unfolding(crate::specs::Reading::token))]
    pub(crate) fn token(&mut self, bytes: &[u8]) -> Result<(), Cause>
        ensures { Steps (token_of self.old bytes.now) self.old self.new result }
    {
        if self.case.filed() >= self.announced {
            return Err(Cause::Count);
        }
        let value = number(bytes).ok_or(Cause::Token)?;
        if value == 0 {
            self.end_clause()
        } else {
            self.add(value)
        }
    }

    // Adds a literal to the clause that is not finished.
    fn add(&mut self, value: i32) -> Result<(), Cause>
        ensures { Adds value self.old self.new result }
    {
        let literal = Literal::try_from(value)?;
        self.case.admit(value.unsigned_abs())?;
        self.literals = self.literals.with(literal)?;
        Ok(())
    }

    // Files the clause, and begins the next one.
    #[tactic(auto, using(crate::proofs::StepLaws::bare_known, crate::proofs::StepLaws::accepted_rows))]
    fn end_clause(&mut self) -> Result<(), Cause>
        ensures { Steps (end_token (length self.old.table.now)) self.old self.new result }
    {
        self.case.file(self.table, Clause::from(self.literals))?;
        self.literals = LiteralSet::empty();
        Ok(())
    }

    // The case, where each announced clause is filed; refused at the end of the text where one is not.
    pub(crate) fn finish(self, end: usize) -> Result<OpenCase, Fault>
        ensures finishes { Finishes self.entry end result }
        ensures rows { self.exit.0.now ≡ self.entry.table.now }
    {
        let Reader {
            table: _,
            case,
            announced,
            literals: _,
        } = self;
        if case.filed() != announced {
            return Err(Cause::Count.at(end));
        }
        Ok(case)
    }
}
