//! The want of memory.

/// No memory was left for what a call had to make.
#[derive(Clone, Copy, Debug, PartialEq, Eq)]
pub struct NoMemory;
