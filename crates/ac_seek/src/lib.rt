//! The search for an assignment of exponent strategies that fits at one SNR offset, through the tree of partial assignments.
#![tactic(auto)]

mod answer;
mod board;
mod known;
mod laws;
mod path;
mod search;
mod step;
#[cfg(test)]
mod tests;
mod walk;
mod words;

pub use answer::Seek;
pub use laws::tree_laws;
pub use search::seek;
pub use step::Step;
