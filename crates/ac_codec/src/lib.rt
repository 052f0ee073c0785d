//! Fields of a frame as codecs: what each value's bits are, which bits are refused, and small readers and writers
//! of single fields, of which those of heads and blocks are made (A/52 5.3).
#![tactic(auto)]

pub mod read;
mod refused;
pub mod write;

pub use refused::{Refused, Row};
