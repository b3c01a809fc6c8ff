mod kind;
mod make;

use crate::literals::LiteralSet;

// A set of literals that names no point both ways: at least one of them is true.
#[derive(Clone, Copy, Debug, PartialEq, Eq)]
pub struct Clause {
    literals: LiteralSet,
}
