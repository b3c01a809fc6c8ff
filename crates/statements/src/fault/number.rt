ghost use Rattle.std.specs.Prelude.{◌≡◌};
ghost use Rattle.statements.specs.Making.{make_refusal};

use super::MakeFault;

impl MakeFault {
    // The number of the refusal. Each enum has the method: nothing is generic over refusals, and a trait would be one more import.
    pub fn number(self) -> u32
        ensures { result ≡ (make_refusal self).0 }
    {
        self as u32
    }
}
