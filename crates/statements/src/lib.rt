// Statements about the points of a case: what a kind of statement is, sets of literals, and clauses.
#![tactic(auto)]

mod clause;
mod fault;
mod literals;
mod statement;

pub use clause::Clause;
pub use fault::MakeFault;
pub use literals::{Literal, LiteralSet};
pub use statement::Statement;
