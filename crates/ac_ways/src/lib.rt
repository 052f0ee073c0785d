//! Least costs of all ways on at sixteen SNR offsets side by side, and the root offset by windows of offsets.
#![tactic(auto)]

mod bracket;
mod costs;
mod filled;
mod guess;
mod held;
mod kinds;
mod steps;
#[cfg(test)]
mod tests;

pub use bracket::{Reached, root};
pub use filled::ways;
pub use held::{Ways, pots_at};
