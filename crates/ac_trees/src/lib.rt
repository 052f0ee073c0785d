//! Certificates of plans, with the trees by which anyone can check that no assignment of exponent strategies fits above an offset.
#![tactic(auto)]

mod certificates;
mod grow;
mod node;
mod offset;
#[cfg(test)]
mod tests;

pub use certificates::certify;
