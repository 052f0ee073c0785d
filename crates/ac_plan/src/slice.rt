//! What the runs of a frame cost at one offset of a window.
ghost use Rattle.std.specs.Prelude.{◌≡◌, ◌<◌, ◌≤◌, ◌+◌};
ghost use Rattle.ac_cost.specs.Records.{at_offset};
ghost use Rattle.ac_windows.specs.Windows.{IsWindow};

use ac_base::{Run, Shape};
use ac_cost::{RunCosts, exponent_bits, row, run_costs};
use ac_mant::Counts;
use ac_windows::{RunRows, Window};
use std::marker::Model;

/// A window at one of its offsets. Contracts see the shape, the raw exponents and the offset.
#[derive(Drop)]
pub struct Slice<'a> {
    shape: &'a Shape,
    rows: &'a RunRows,
    window: &'a Window,
    first: u16,
    place: u16,
}

impl<'a> Model for Slice<'a> {
    ghost use Rattle.ac_cost.specs.Records.{AtOffset};

    ghost Value = { AtOffset };

    ghost use Rattle.ac_plan.specs.Slices.{offset_of, IsSlice};

    ghost view = { offset_of };

    ghost invariant = { IsSlice };
}

impl<'a> Slice<'a> {
    /// The offset `place` above the first of a window.
    pub fn of(
        shape: &'a Shape,
        rows: &'a RunRows,
        window: &'a Window,
        first: u16,
        place: u16,
    ) -> Slice<'a>
        requires same { rows.now.shape ≡ shape.now }
        requires window { IsWindow shape.now rows.now.raw first window.now.six }
        requires first { first ≤ 1008 }
        requires place { place < 16 }
        ensures value { result ≡ at_offset shape.now rows.now.raw (first + place) }
    {
        Slice {
            shape,
            rows,
            window,
            first,
            place,
        }
    }
}

impl<'a> RunCosts for Slice<'a> {
    ghost offset = { λ v. v };

    fn run_counts(&self, channel: u8, run: &Run) -> Counts {
        self.rows.counts(self.first + self.place, channel, run)
    }

    fn run_sixths(&self, channel: u8, run: &Run) -> [u32; 3] {
        let six = self.window.six[usize::from(channel)][row(run)][usize::from(self.place)];
        run_costs(
            exponent_bits(run.kind, &self.shape.span(channel)),
            run,
            u32::from(six),
        )
    }
}
