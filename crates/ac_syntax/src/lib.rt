//! The fields of a frame up to its mantissas (A/52 5.3, 5.4): read and written field by field, and each block filled by what
//! earlier blocks of its frame sent, with the bins of its coded channels.
#![tactic(auto)]

mod bins;
mod filling;
mod latest;
mod laws;

pub use ac_codec::{Refused, Row};
pub use ac_row_reading::{read_block, read_head};
pub use ac_row_writing::{write_block, write_head};
pub use ac_rows::{Block, Head};
pub use bins::spans;
pub use filling::filled;
pub use laws::{side_laws, syntax_laws};

#[cfg(test)]
mod tests;
