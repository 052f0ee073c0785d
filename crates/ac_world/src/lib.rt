//! What the outside tells before and after a call, and a piece of output written with its line of the report.
#![tactic(auto)]

mod limit;
mod lines;
mod writing;

pub use limit::LIMIT;
pub use lines::{Line, push_number};
pub use writing::{Broken, emit};
