//! The arrays that encode works in.
ghost use Rattle.std.specs.Prelude.{◌≡◌, replicate, pos};

use ac_bits::FRAME_BYTES;
use std::alloc::{AllocError, Global};

/// The arrays that encode works in.
#[derive(Clone, Copy)]
pub struct Work {
    /// The samples of a frame, by channel in coding order.
    pub rows: [[i32; 1536]; 6],
    /// The bytes of a frame.
    pub bytes: [u8; FRAME_BYTES],
}

static BLANK: Work = Work {
    rows: [[0; 1536]; 6],
    bytes: [0; FRAME_BYTES],
};

/// The arrays, in one piece of memory.
pub fn open(alloc: Global) -> Result<Box<Work>, AllocError> {
    let blank = &BLANK;
    match Box::new(alloc, *blank) {
        Ok(work) => Ok(work),
        Err(_) => Err(AllocError),
    }
}

/// Sets all rows to 0.
pub fn clear(work: &mut Work)
    ensures { work.new.rows ≡ replicate 6 (replicate 1536 (pos 0)) }
{
    work.rows = [[0; 1536]; 6];
}
