// The faults of the layers below, carried whole. Written by hand: a derived `From` does not say which cause it makes, and the contract
// of `read` rests on that.
ghost use Rattle.std.specs.Prelude.{◌≡◌};
ghost use Rattle.dimacs.specs.declared.fault.Cause.TheVariants.{Open, Make, File};

use super::Cause;
use cases::{FileFault, OpenFault};
use statements::MakeFault;

impl From<OpenFault> for Cause {
    ghost from_gives = { λ e c. c ≡ Open e };

    fn from(fault: OpenFault) -> Cause {
        Cause::Open(fault)
    }
}

impl From<MakeFault> for Cause {
    ghost from_gives = { λ e c. c ≡ Make e };

    fn from(fault: MakeFault) -> Cause {
        Cause::Make(fault)
    }
}

impl From<FileFault> for Cause {
    ghost from_gives = { λ e c. c ≡ File e };

    fn from(fault: FileFault) -> Cause {
        Cause::File(fault)
    }
}
