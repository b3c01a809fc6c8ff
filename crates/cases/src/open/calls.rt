ghost use Rattle.std.specs.Prelude.{◌≡◌, ◌<◌, ◌≤◌, None, MatchResult};
ghost use Rattle.cases.specs.Filing.{Opened, Files};
ghost use Rattle.cases.specs.Refusals.{open_refusal};
ghost use Rattle.cases.specs.declared.fault.FileFault.TheVariants.{Beyond};

use super::OpenCase;
use crate::fault::{FileFault, OpenFault};
use points::Point;
use statements::Statement;

// How many rows of a filing table are used at the most.
const ROWS: usize = 65536;

impl OpenCase {
    // A case on the points 1 to `points`, with nothing filed; refused where that is not from 1 to 64 points.
    pub fn open(points: u32) -> Result<OpenCase, OpenFault>
        ensures { MatchResult result (Opened points) (λ e. (open_refusal e).1 points) }
    {
        // the last point of the case
        let last = Point::new(points).ok_or(OpenFault::Points)?;
        Ok(OpenCase {
            points: last.number(),
            filed: 0,
            noted: None,
        })
    }

    // Whether the case has the point `last`; refused where it is beyond the points of the case.
    pub fn admit(&self, last: u32) -> Result<(), FileFault>
        ensures { MatchResult result (λ _. last ≤ self.now.points) (λ e. (e ≡ Beyond) × (self.now.points < last)) }
    {
        if last > self.points {
            return Err(FileFault::Beyond);
        }
        Ok(())
    }

    // Files the statement in the next row of the table, and answers its number. Refused where its last point is beyond those of the
    // case, and else where no usable row is left; a refusal changes nothing. The table is lent at each call, and not held, since a case
    // lives longer than one call.
    pub fn file<S: Statement>(&mut self, table: &mut [S], statement: S) -> Result<usize, FileFault>
        ensures { Files S.kind.core self.old table.old statement self.new table.new result }
    {
        self.admit(statement.last())?;
        let number = self.filed;
        if number >= table.len() || number >= ROWS {
            return Err(FileFault::Full);
        }
        table[number] = statement;
        self.filed = number + 1;
        Ok(number)
    }
}
