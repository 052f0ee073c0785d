//! What is told of a frame, and what is the same in all frames of a stream.

/// What is told of a frame that was decoded.
#[derive(Clone, Copy, Debug, PartialEq, Eq)]
pub struct Heard {
    /// The rate of sampling: 0 for 48, 1 for 44.1, 2 for 32 kHz (A/52 5.4.1.3).
    pub fscod: u8,
    /// The full-bandwidth channels, from 1 to 7 (A/52 5.4.2.3).
    pub acmod: u8,
    /// Whether there is a low-frequency channel (A/52 5.4.2.7).
    pub lfe: bool,
    /// The number of bytes of the frame.
    pub size: u16,
}

/// What is the same in all frames of a stream.
#[derive(Clone, Copy, Debug, PartialEq, Eq)]
pub struct Kind {
    /// The rate of sampling (A/52 5.4.1.3).
    pub fscod: u8,
    /// The full-bandwidth channels (A/52 5.4.2.3).
    pub acmod: u8,
    /// Whether there is a low-frequency channel (A/52 5.4.2.7).
    pub lfe: bool,
}
