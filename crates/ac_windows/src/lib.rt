//! What the mantissas of all runs of a frame cost at sixteen SNR offsets side by side.
#![tactic(auto)]

mod channel;
mod counted;
mod held;
mod masks;
#[cfg(test)]
mod tests;
mod window;

pub use held::RunRows;
pub use window::Window;
