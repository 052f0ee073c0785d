//! The arrays that decode works in.
use ac_bits::FRAME_BYTES;
use ac_wav::Pcm;
use std::alloc::{AllocError, Global};

/// The most bytes of a frame's samples: 1,536 of six channels, of 24 bits.
pub const SAMPLE_BYTES: usize = 27648;

/// The arrays that decode works in.
#[derive(Clone, Copy)]
pub struct DecodeWork {
    /// The samples of a frame, by channel in coding order.
    pub pcm: Pcm,
    /// The bytes of a frame.
    pub frame: [u8; FRAME_BYTES],
    /// The bytes of its samples.
    pub samples: [u8; SAMPLE_BYTES],
}

static BLANK: DecodeWork = DecodeWork {
    pcm: Pcm { s: [[0; 1536]; 6] },
    frame: [0; FRAME_BYTES],
    samples: [0; SAMPLE_BYTES],
};

/// The arrays, in one piece of memory.
pub fn open(alloc: Global) -> Result<Box<DecodeWork>, AllocError> {
    let blank = &BLANK;
    match Box::new(alloc, *blank) {
        Ok(work) => Ok(work),
        Err(_) => Err(AllocError),
    }
}
