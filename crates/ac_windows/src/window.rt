//! The sixths of a bit of all runs at sixteen offsets.

/// What the mantissas of each run cost in one of its blocks, in sixths of a bit, at sixteen SNR offsets side by side: by coded
/// channel, row of the run and offset.
#[derive(Clone, Copy, Debug)]
pub struct Window {
    pub six: [[[u16; 16]; 63]; 7],
}
