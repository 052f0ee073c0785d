//! The text of certificates: read into the one certificate that it stands for, and printed.
//!
//! The grammar is a codec, made of pieces by a few combinators whose laws are proved once. A text stands for at most one certificate.
#![tactic(auto)]

mod cursor;
mod fault;
mod grow;
mod head;
mod levels;
mod number;
mod pots;
mod raws;
#[cfg(test)]
mod tests;
mod whole;
mod words;

pub use whole::{ParseFault, parse};
