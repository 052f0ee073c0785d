//! The arrays that synth works in.
use ac_bits::FRAME_BYTES;
use ac_dec::Pcm;
use std::alloc::{AllocError, Global};

/// The arrays that synth works in.
#[derive(Clone, Copy)]
pub struct Work {
    /// The samples of a frame, by channel.
    pub rows: [[i32; 1536]; 6],
    /// The bytes of a frame.
    pub bytes: [u8; FRAME_BYTES],
    /// What is decoded of it.
    pub pcm: Pcm,
}

static BLANK: Work = Work {
    rows: [[0; 1536]; 6],
    bytes: [0; FRAME_BYTES],
    pcm: Pcm { s: [[0; 1536]; 6] },
};

/// The arrays, in one piece of memory.
pub fn open(alloc: Global) -> Result<Box<Work>, AllocError> {
    let blank = &BLANK;
    match Box::new(alloc, *blank) {
        Ok(work) => Ok(work),
        Err(_) => Err(AllocError),
    }
}
