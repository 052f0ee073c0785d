//! Coupling: whether it is worth it, the coupling channel, and the coordinates (A/52 7.4).
#![tactic(auto)]

mod factors;
mod means;
mod range;
mod sending;
mod whole;

pub use factors::{coordinate, coordinate_laws};
pub use whole::{couple, couples};
