//! The sound of a generated job: noise of two channels at 48 kHz, whose loudness falls from frame to frame and begins anew every
//! eighth.
#![tactic(auto)]

mod draws;
mod noise;
mod rows;

pub use noise::Noise;

#[cfg(test)]
mod tests;
