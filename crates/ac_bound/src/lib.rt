//! Lower bounds of what assignments of exponent strategies cost: by least costs from each boundary between blocks on, and the
//! greatest SNR offset that they don't rule out.
#![tactic(auto)]

mod bounds;
mod laws;
mod pots;
mod roots;
mod steps;
#[cfg(test)]
mod tests;

pub use bounds::{Partial, is_over, lower};
pub use laws::bound_laws;
pub use pots::Pots;
pub use roots::{root, root_offset};
