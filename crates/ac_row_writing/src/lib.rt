//! Writing the fields of a frame up to its mantissas (A/52 5.3, 5.4), group by group, by their relations to bits in `ac_rows`.
#![tactic(auto)]

mod allocation;
mod block;
mod codes;
mod exponent;
mod exponents;
mod head;
mod shared;
mod start;
mod strategy;

pub use block::write_block;
pub use head::write_head;
