//! The parametric bit allocation of A/52 7.2: the masking curve of a coded channel from its exponents, and the bit
//! allocation pointers of its bins at an SNR offset.
#![tactic(auto)]

mod excitation;
mod integration;
mod laws;
mod leaks;
mod lowcomp;
mod mask;
mod params;
mod pointers;
#[cfg(test)]
mod tests;

pub use integration::psd;
pub use laws::{allocation_laws, key_laws};
pub use mask::Mask;
pub use params::Params;
pub use pointers::{address, bap_of, baps, level};
