//! What this encoder sends in a frame: its fields, its mantissas and its padding, of values that are handed in (A/52 5.3).
#![tactic(auto)]

mod laws;
mod quantised;
mod size;

pub use laws::sent_laws;
pub use quantised::Quantised;
pub use size::frame_code;
