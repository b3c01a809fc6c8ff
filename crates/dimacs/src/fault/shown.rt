// A refusal as it is printed: its number, and the place.
ghost use Rattle.std.specs.Prelude.{Some};
ghost use Rattle.dimacs.specs.Reading.{fault_text};

use super::Fault;
use std::error::Error;
use std::fmt;

impl fmt::Display for Fault {
    ghost output = { λ f. Some (fault_text f) };

    fn fmt<W: fmt::Write>(&self, f: &mut fmt::Formatter<W>) -> fmt::Result {
        write!(f, "refused {} at {}", self.cause.number(), self.place)
    }
}

impl Error for Fault {}
