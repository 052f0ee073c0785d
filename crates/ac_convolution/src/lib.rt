//! The negacyclic correlation of 256 whole numbers by Nussbaumer's polynomial transform, whose roots of one are powers of
//! the variable: 12,288 products in place of 65,536, and the same 256 sums, without a rounding. The algebra, the bounds
//! and the reason that nothing is rounded stand in docs/TRANSFORM.md.
#![tactic(auto)]

mod forward;
mod inverse;
mod product;
mod rows;
mod sparse;
mod sums;
mod table;
mod wide;

pub use sparse::sparse_correlation;
pub use sums::negacyclic_correlation;
pub use table::kernel_table;

#[cfg(test)]
mod tests;
