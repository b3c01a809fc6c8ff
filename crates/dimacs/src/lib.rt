// The reader of clause files: a text of bytes is filed, clause by clause, into a new case.
#![tactic(auto)]

mod fault;
mod reader;

pub use fault::{Cause, Fault};
pub use reader::{MOST_BYTES, read};
