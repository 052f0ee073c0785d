//! A frame as one list of bits, the record of fields that it stands for, and what a reader gives of it (A/52 5.3).
#![tactic(auto)]

mod codes;
mod empty;
mod laws;

pub use codes::{FrameCodes, FrameFault};
pub use laws::record_laws;
