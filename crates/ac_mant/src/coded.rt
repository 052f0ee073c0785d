//! A mantissa, and why mantissas are refused.

/// A mantissa as it goes into a frame: its bit allocation pointer, at most 15, and its code, which is one of that pointer.
#[derive(Clone, Copy, Debug, PartialEq, Eq)]
pub struct Coded {
    /// The bit allocation pointer.
    pub bap: u8,
    /// The code (A/52 7.3.3, 7.3.4).
    pub code: u16,
}

/// Why the bits of a block's mantissas are refused.
#[derive(Clone, Copy, Debug, PartialEq, Eq)]
pub enum MantFault {
    /// The next number isn't whole.
    OutOfBits,
    /// The number at this place, which counts the mantissas from 0, stands for no codes: 27 or more for pointer 1, 125 or more
    /// for pointer 2, 121 or more for pointer 4, 7 for pointer 3, 15 for pointer 5.
    BadGroup {
        /// The place of its first mantissa.
        place: u16,
    },
}
