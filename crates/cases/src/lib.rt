// A case: its points, and the statements that are filed into it. The tables are lent at each call.
#![tactic(auto)]

mod fault;
mod open;

pub use fault::{FileFault, OpenFault};
pub use open::OpenCase;
