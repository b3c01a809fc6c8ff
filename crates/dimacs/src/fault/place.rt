ghost use Rattle.std.specs.Prelude.{◌≡◌};

use super::{Cause, Fault};

impl Cause {
    // The fault of this cause at the place.
    pub(crate) fn at(self, place: usize) -> Fault
        ensures { result ≡ record { cause = self; place = place } }
    {
        Fault { cause: self, place }
    }
}
