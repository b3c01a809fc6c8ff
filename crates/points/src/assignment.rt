mod answers;

use crate::set::PointSet;

// Yes or no to every point: the set of the points that are yes.
#[derive(Clone, Copy, Debug, PartialEq, Eq)]
pub struct Assignment {
    yes: PointSet,
}
