//! Mantissas (A/52 7.3): the quantiser and the values of its codes, the groups in which small codes go, and what a block
//! costs.
#![tactic(auto)]

mod ahead;
mod coded;
mod counts;
mod held;
mod laws;
mod packing;
mod pen;
mod quantiser;
mod unpacking;
mod window;

pub use coded::{Coded, MantFault};
pub use counts::{Counts, cost_laws, exact, sixths};
pub use laws::reading_law;
pub use packing::pack_block;
pub use quantiser::{quantise, value};
pub use unpacking::unpack_block;

#[cfg(test)]
mod tests;
