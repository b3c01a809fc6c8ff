mod lower;
mod number;
mod place;
mod shown;

use cases::{FileFault, OpenFault};
use statements::MakeFault;

// Why a text is refused.
#[derive(Clone, Copy, Debug, PartialEq, Eq)]
pub enum Cause {
    // The text has more than 16,384 bytes.
    Long,
    // There is no header line, or it is not right.
    Header,
    // A token is no number.
    Token,
    // There are more clauses than announced, or fewer.
    Count,
    Open(OpenFault),
    Make(MakeFault),
    File(FileFault),
}

// Why a text is refused, and the place of the byte at which it is.
#[derive(Clone, Copy, Debug, PartialEq, Eq)]
pub struct Fault {
    pub cause: Cause,
    pub place: usize,
}
