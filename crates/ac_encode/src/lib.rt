//! The command encode: a WAV from a source, frame by frame to the output, and a line of each to the report.
#![tactic(auto)]

mod emit;
mod encoding;
mod frame;
mod frames;
mod known;
mod law;
mod lines;
mod work;

pub use encoding::encode;
pub use law::{input_law, stream_law};
