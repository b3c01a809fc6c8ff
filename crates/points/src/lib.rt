// Points of a case, sets of points in one machine word, and assignments.
#![tactic(auto)]

mod assignment;
mod point;
mod set;

pub use assignment::Assignment;
pub use point::Point;
pub use set::PointSet;
