//! The masks of all runs of a coded channel, worked out side by side.
#![tactic(auto)]

mod additions;
mod densities;
mod gains;
mod masks;
mod state;
#[cfg(test)]
mod tests;

pub use additions::AddTable;
pub use masks::fill_bases;
