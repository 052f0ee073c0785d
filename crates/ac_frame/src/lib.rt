//! The one door to whole frames (A/52 5.3): their size, reading and packing, and what is handed in and out.
//!
//! `pack` writes the frame of values that are handed in, `read` gives the values of a frame's bytes or its first fault, and `size`
//! tells from the first bytes how many a frame has. The laws say what is true of every frame, whoever wrote it.
#![tactic(auto)]

mod law;
mod packing;

pub use ac_packing::pack_law;
pub use ac_reading::{read, size};
pub use ac_record::{FrameCodes, FrameFault, record_laws};
pub use ac_sent::{Quantised, frame_code, sent_laws};
pub use law::{padding_law, plain_law};
pub use packing::pack;

#[cfg(test)]
mod tests;
