//! How a command ends: its status, the program's exit code and the last line of the report.
#![tactic(auto)]

mod lines;
mod status;

pub use lines::status_line;
pub use status::Status;
