//! The fields of a frame up to its mantissas (A/52 5.3, 5.4): their types, in groups, and what the rows of a block see of the
//! blocks before it. Each group is one relation between values and bits; `ac_row_reading` reads it and `ac_row_writing` writes it.
#![tactic(auto)]

mod block;
pub mod channels;
pub mod free_bits;
pub mod groups;
mod head;
pub mod head_groups;
pub mod joining;
pub mod known;
pub mod optional;
pub mod reuse;
pub mod span;

pub use block::Block;
pub use channels::{full_channels, stereo};
pub use groups::{Coupling, Strategy};
pub use head::Head;
pub use known::{coupling_of, over};
pub use optional::{both, holds, number};
