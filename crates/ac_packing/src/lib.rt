//! A whole frame of any layout from the values that it carries (A/52 5.3).
#![tactic(auto)]

mod body;
mod frame;
mod law;
mod mantissas;
mod padding;
mod parts;
mod pointers;

pub use frame::pack;
pub use law::pack_law;
