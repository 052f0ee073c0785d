//! A frame of any layout from the coefficients of its coded channels, an SNR offset and an assignment of strategies to them: the
//! exponents of the runs, the codes of the mantissas, and the bytes (A/52 8.2.7 to 8.2.12).
#![tactic(auto)]

mod codes;
mod exponents;
mod frame;
mod laws;
mod runs;

pub use frame::code_frame;
pub use laws::coding_laws;
