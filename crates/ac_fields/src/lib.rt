//! The head and the blocks of a frame as this encoder fills them, of values that are handed in (A/52 5.3, 5.4).
#![tactic(auto)]

mod allocation;
mod arrays;
mod block;
mod codes;
mod exponents;
mod head;
mod laws;
mod shared;
mod strategy;

pub use block::frame_block;
pub use head::frame_head;
pub use laws::asked_law;

#[cfg(test)]
mod tests;
