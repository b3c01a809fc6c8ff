ghost use Rattle.std.specs.Prelude.{◌≡◌};
ghost use Rattle.cases.specs.Refusals.{open_refusal};

use super::OpenFault;

impl OpenFault {
    // The number of the refusal. Each enum has the method: nothing is generic over refusals, and a trait would be one more import.
    pub fn number(self) -> u32
        ensures { result ≡ (open_refusal self).0 }
    {
        self as u32
    }
}
