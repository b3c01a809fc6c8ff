ghost use Rattle.std.specs.Prelude.{◌≡◌};
ghost use Rattle.dimacs.specs.Reading.{cause_number};

use super::Cause;

impl Cause {
    // The number of the refusal. A match, since a cause that carries a lower fault has no number of its own to cast.
    pub fn number(self) -> u32
        ensures { result ≡ cause_number self }
    {
        match self {
            Cause::Long => 20,
            Cause::Header => 21,
            Cause::Token => 22,
            Cause::Count => 23,
            Cause::Open(fault) => fault.number(),
            Cause::Make(fault) => fault.number(),
            Cause::File(fault) => fault.number(),
        }
    }
}
