//! The encoder: from the samples of a frame to its bytes, by the best plan of the frame.
#![tactic(auto)]

mod encoder;
mod fault;
mod law;
mod shapes;
mod sound;
mod state;
#[cfg(test)]
mod tests;
mod transform;

pub use ac_plan::{Mark, Plan};
pub use ac_words::{Couple, Options};
pub use encoder::Encoder;
pub use fault::NewFault;
pub use law::frame_law;
pub use state::FrameDone;
