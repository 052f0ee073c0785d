//! What a reader gives of a frame, and why it refuses one.

use ac_codec::{Refused, Row};
use ac_rows::{Block, Head};
use std::alloc::AllocError;

/// The fields, exponents, pointers and codes of a frame. Coded channels are numbered in each block as those of a shape that couples
/// exactly where coupling is in use in this block: the full ones, then the coupling channel, then LFE. Bins that a coded channel
/// doesn't have in a block are 0.
///
/// The types of a block, and of a channel's rows by block and bin, are those named here in every call of these crates; they are
/// parameters so that a reading can be made in one place, for whichever types.
pub struct FrameCodes<B: Copy = Block, R: Copy = [[u8; 256]; 6], C: Copy = [[u16; 256]; 6]> {
    /// The fields before block 0 (A/52 5.3.1, 5.3.2).
    pub head: Head,
    /// The fields of the blocks as they were sent (A/52 5.3.3).
    pub block: [B; 6],
    /// The exponents, by coded channel, block and bin (A/52 7.1.3).
    pub exps: [R; 7],
    /// The bit allocation pointers, likewise (A/52 7.2.2.7).
    pub baps: [R; 7],
    /// The codes of the mantissas, likewise (A/52 7.3).
    pub codes: [C; 7],
}

impl<B: Copy, R: Copy, C: Copy> Clone for FrameCodes<B, R, C> {
    fn clone(&self) -> Result<Self, AllocError> {
        Ok(*self)
    }
}

impl<B: Copy, R: Copy, C: Copy> Copy for FrameCodes<B, R, C> {}

/// Why bytes are no frame.
#[derive(Clone, Copy, Debug, PartialEq, Eq)]
pub enum FrameFault {
    /// There are only so many bytes: fewer than the six of the size, or than the size says.
    Short {
        /// How many there are.
        have: u32,
    },
    /// The remainder over the first part isn't 0 (A/52 7.10.1).
    BadCrc1(u16),
    /// The remainder over the whole frame isn't 0 (A/52 7.10.1).
    BadCrc2(u16),
    /// This field differs from that of the first frame of the stream. Reading a frame alone never answers so.
    Changed(Row),
    /// A field or a mantissa is refused.
    Field(Refused),
}
