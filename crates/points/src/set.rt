mod algebra;
mod measure;

ghost use Rattle.std.specs.Prelude.{◌^◌, ◌<◌};

// A set of points, held in one machine word: the point p is bit p - 1.
#[derive(Clone, Copy, Debug)]
pub struct PointSet {
    bits: u64,
    ghost within: { bits < 2 ^ 64 },
}
