//! What is worked out while a frame is planned.
ghost use Rattle.std.specs.Prelude.{◌≡◌};
ghost use Rattle.ac_cost.specs.Records.{exponents};

use crate::window::{Held, NOTHING};
use ac_base::Shape;
use ac_expo::RawExps;
use ac_windows::RunRows;

/// The runs of a frame and a window of its offsets. Whoever plans many frames makes these arrays once and lends them.
#[derive(Drop)]
pub struct Work {
    pub rows: RunRows,
    pub held: Held,
}

impl Work {
    /// The runs of a shape's coded channels, by raw exponents.
    pub fn of(shape: &Shape, raw: &RawExps) -> Work
        ensures rows { result.rows ≡ exponents shape.now raw.now.e }
    {
        let nothing = &NOTHING;
        Work {
            rows: RunRows::of(shape, raw),
            held: *nothing,
        }
    }
}
