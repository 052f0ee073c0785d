//! Whole frames from their bytes (A/52 5.3): the size, the CRC words, the fields, exponents, bit allocation pointers and codes.
#![tactic(auto)]

mod cells;
mod channels;
mod exponents;
mod framing;
mod kept;
mod mantissas;
mod order;
mod pointers;
mod reading;
mod sizing;

pub use ac_record::{FrameCodes, FrameFault};
pub use reading::read;
pub use sizing::size;

#[cfg(test)]
mod tests;
