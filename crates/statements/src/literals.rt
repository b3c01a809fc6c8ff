mod make;
mod named;
mod pairs;

ghost use Rattle.std.specs.Prelude.{◌≡◌, true};
ghost use Rattle.points.specs.Sets.{common, is_empty};

use points::{Point, PointSet};

// A point, or its denial.
#[derive(Clone, Copy, Debug, PartialEq, Eq)]
pub enum Literal {
    Positive(Point),
    Negative(Point),
}

// A set of literals that names no point both ways.
#[derive(Clone, Copy, Debug, PartialEq, Eq)]
pub struct LiteralSet {
    // the points that stand in it as they are
    pub(crate) yes: PointSet,
    // the points whose denials stand in it
    pub(crate) no: PointSet,
    ghost apart: { is_empty (common yes no) ≡ true },
}
