//! The text of certificates, printed.
//!
//! The grammar is that of `ac_cert_text`. What is printed goes through a small buffer, and no memory is taken.
#![tactic(auto)]

mod head;
mod levels;
mod pen;
mod pots;
mod raws;
#[cfg(test)]
mod tests;
mod trees;
mod whole;
mod words;

pub use whole::print;
