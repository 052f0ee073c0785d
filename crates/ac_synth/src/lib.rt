//! The command synth: a generated sound, encoded frame by frame to the output, decoded again, and one line to the report.
#![tactic(auto)]

mod command;
mod encoder;
mod frame;
mod frames;
mod hearing;
mod known;
mod law;
mod lines;
mod magnitudes;
mod making;
mod tally;
mod work;

pub use command::synth;
pub use law::again_law;

#[cfg(test)]
mod tests;
