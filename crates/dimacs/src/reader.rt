mod body;

ghost use Rattle.std.specs.Prelude.{◌≡◌, ◌≤◌, length, nat_lt, MatchResult};
ghost use Rattle.cases.specs.Filing.{Opened};
ghost use Rattle.cases.specs.declared.fault.OpenFault.TheVariants.{Points};
ghost use Rattle.lexer.specs.Parts.{words_left};
ghost use Rattle.dimacs.specs.Denoting.{Reads};
ghost use Rattle.dimacs.specs.Plain.{ReadsBack, Example};
ghost use Rattle.dimacs.specs.Reading.{body, begun, over};
ghost use Rattle.dimacs.specs.Steps.{Answers};
ghost use Rattle.dimacs.specs.declared.fault.Cause.TheVariants.{Open};

use crate::fault::{Cause, Fault};
use body::Reader;
use cases::OpenCase;
use lexer::{Cut, Header, Words, header_line};
use statements::{Clause, LiteralSet};

// How many bytes a text has at the most.
pub const MOST_BYTES: usize = 16384;

// Files the clauses of the text into a new case, whose filing table is lent. A refusal names the byte; the clauses before it stay
// in the table.
#[tactic(auto, using(crate::proofs::PlainLaws::reads_back, crate::proofs::PlainLaws::example, crate::proofs::StepLaws::bare_known))]
pub fn read(text: &[u8], table: &mut [Clause]) -> Result<OpenCase, Fault>
    ensures reads { Reads text.now table.old table.new result }
    ensures back { ReadsBack }
    ensures example { Example }
{
    if is_too_long(text) {
        return Err(Cause::Long.at(MOST_BYTES));
    }
    let line = header_line(text).ok_or(Cause::Header.at(text.len()))?;
    let header = Header::parse(line.bytes).ok_or(Cause::Header.at(line.start))?;
    let case = open_at(header.points, line.start + header.points_at)?;
    let mut reader = Reader {
        table,
        case,
        announced: header.clauses as usize,
        literals: LiteralSet::empty(),
    };
    reader.tokens(Words::new(text, line.end(), Cut::Space))?;
    reader.finish(text.len())
}

// A new case on so many points. A fault names the place at which their number stands.
fn open_at(points: u32, place: usize) -> Result<OpenCase, Fault>
    ensures { MatchResult result (Opened points) (λ f. (f ≡ record { cause = Open Points; place = place }) × (1 ≤ points → points ≤ 64 → ⊥)) }
{
    OpenCase::open(points).map_err(|fault| Cause::from(fault).at(place))
}

// Whether the text has more bytes than are read.
fn is_too_long(text: &[u8]) -> bool
    ensures { result ≡ nat_lt 16384 (length text.now) }
{
    text.len() > MOST_BYTES
}
