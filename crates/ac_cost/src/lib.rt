//! What the exponents and mantissas of a frame cost at an SNR offset: by runs, and by the three parts of a frame that have a
//! room of their own.
#![tactic(auto)]

mod blocks;
mod costs;
mod laws;
mod least;
mod listed;
mod lists;
mod parts;
mod priced;
mod rows;
mod table;
#[cfg(test)]
mod tests;

pub use blocks::{exponent_bits, run_costs};
pub use costs::RunCosts;
pub use laws::assignment_laws;
pub use least::cheapest;
pub use lists::RunLists;
pub use parts::{assign_fits, assign_parts};
pub use rows::{row, row_count, run_at};
pub use table::RunTable;
