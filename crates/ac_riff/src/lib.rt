//! The head of RIFF WAVE.
//!
//! A head is read chunk by chunk from a source of bytes that never seeks; what has none is refused with the first
//! rule that fails and the place where it fails.
#![tactic(auto)]

mod chunk;
mod fault;
mod format;
mod head;
mod law;
pub mod layout;
#[cfg(test)]
mod memory;
mod pieces;

pub use fault::{Field, WavFault, WavKind};
pub use head::WavHead;
pub use law::head_law;
pub use pieces::read_piece;
