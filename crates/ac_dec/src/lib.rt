//! The decoder: from the bytes of a frame to its samples, which go on from those of the frame before.
#![tactic(auto)]

mod change;
mod decoder;
mod kind;
mod law;
mod mantissas;
mod separating;
mod sounding;
mod state;

pub use ac_record::FrameFault;
pub use ac_wav::Pcm;
pub use decoder::Decoder;
pub use kind::Heard;
pub use law::sound_law;

#[cfg(test)]
mod tests;
