//! The runs of a frame, held so that what they cost is read off a table.
ghost use Rattle.std.specs.Prelude.{◌≡◌, ◌≤◌, ◌<◌, ◌+◌, ℕ, slice_index, slice_index_or};
ghost use Rattle.ac_cost.specs.Records.{exponents};
ghost use Rattle.ac_expo.specs.Raw.{channels};
ghost use Rattle.ac_cost.specs.Pointers.{run_tally};
ghost use Rattle.ac_cost.specs.Prices.{AreFew};
ghost use Rattle.ac_cost.specs.Runs.{IsRunOf};
ghost use Rattle.ac_mant.specs.Counts.{tally};
ghost use Rattle.ac_masks.specs.Adding.{IsAddTable};
ghost use Rattle.ac_windows.specs.Held.{IsHeld};
ghost use Rattle.ac_windows.specs.Seen.{no_rows};
ghost use Rattle.ac_windows.specs.Windows.{IsWindow, block_sixths};

use crate::channel::{ChannelRows, hold_channel};
use crate::counted::count_row;
use crate::window::Window;
use ac_base::{Run, Shape};
use ac_cost::{row, row_count};
use ac_expo::RawExps;
use ac_mant::Counts;
use ac_masks::AddTable;
use ac_sixths::{SixthTable, kind_windows, row_windows};
use std::marker::Model;

/// No mantissas.
const NONE: Counts = Counts {
    linear: 0,
    n1: 0,
    n2: 0,
    n4: 0,
};

/// What doesn't depend on the offset, for one shape and raw exponents. Contracts see the shape and the raw exponents.
#[derive(Drop)]
pub struct RunRows {
    shape: Shape,
    raw: RawExps,
    adds: AddTable,
    table: SixthTable,
    of: [ChannelRows; 7],
}

impl Model for RunRows {
    ghost use Rattle.ac_cost.specs.Records.{Exponents};

    ghost Value = { Exponents };

    ghost use Rattle.ac_windows.specs.Seen.{exponents_of, AreRunRows};

    ghost view = { exponents_of };

    ghost invariant = { AreRunRows };
}

/// No runs.
const BLANK: ChannelRows = ChannelRows {
    levels: [[0; 256]; 63],
    bases: [[0; 64]; 50],
};

/// What is held of all coded channels.
fn hold_channels(adds: &AddTable, shape: &Shape, raw: &RawExps, out: &mut [ChannelRows; 7])
    requires { IsAddTable adds.now.rises }
    ensures { (c : ℕ) → c < channels shape.now
        → IsHeld shape.now raw.now.e c (slice_index_or out.new c no_rows).levels (slice_index_or out.new c no_rows).bases }
{
    for c in 0..shape.coded() {
        hold_channel(adds, shape, raw, c, &mut out[c as usize]);
    }
}

impl RunRows {
    /// The runs of a shape's coded channels, by raw exponents.
    pub fn of(shape: &Shape, raw: &RawExps) -> RunRows
        ensures value { result ≡ exponents shape.now raw.now.e }
    {
        let adds = AddTable::new();
        let mut of = [BLANK; 7];
        hold_channels(&adds, shape, raw, &mut of);
        RunRows {
            shape: *shape,
            raw: *raw,
            adds,
            table: SixthTable::new(),
            of,
        }
    }

    /// Holds those of another shape and other raw exponents in the place of what was held. No array is made anew.
    pub fn fill(&mut self, shape: &Shape, raw: &RawExps)
        ensures value { self.new ≡ exponents shape.now raw.now.e }
    {
        hold_channels(&self.adds, shape, raw, &mut self.of);
        self.shape = *shape;
        self.raw = *raw;
    }

    /// What they cost at the offsets from `t0` to `t0 + 15`.
    pub fn window(&self, t0: u16, out: &mut Window)
        requires t0 { t0 ≤ 1008 }
        ensures value { IsWindow self.now.shape self.now.raw t0 out.new.six }
    {
        for c in 0..self.shape.coded() {
            let span = self.shape.span(c);
            let rows = &self.of[c as usize];
            row_windows(
                &self.table,
                &span,
                0,
                row_count(span.lead) as usize,
                &rows.levels,
                &rows.bases,
                t0,
                &mut out.six[c as usize],
            );
        }
    }

    /// What those of one run cost in a block, in sixths of a bit, at these offsets.
    pub fn run_window(&self, t0: u16, channel: u8, run: &Run) -> [u16; 16]
        requires t0 { t0 ≤ 1008 }
        requires run { IsRunOf self.now.shape channel run.now }
        ensures value { (j : ℕ) → j < 16
            → slice_index result j ≡ block_sixths self.now.shape self.now.raw (t0 + j) channel run.now }
    {
        let span = self.shape.span(channel);
        let rows = &self.of[channel as usize];
        let at = row(run);
        let kind = (at / 21) as u8 + 1;
        kind_windows(
            &self.table,
            &span,
            kind,
            &rows.levels[at],
            &rows.bases,
            at,
            t0,
        )
    }

    /// The mantissas of a run of a coded channel in one of its blocks at an offset t (A/52 7.3.5).
    pub fn counts(&self, t: u16, channel: u8, run: &Run) -> Counts
        requires t { t ≤ 1023 }
        requires run { IsRunOf self.now.shape channel run.now }
        ensures value { tally result ≡ run_tally self.now.shape self.now.raw t channel run.now }
        ensures bound { AreFew 1 result }
    {
        if t == 0 {
            return NONE;
        }
        let rows = &self.of[channel as usize];
        let at = row(run);
        count_row(
            &self.shape.span(channel),
            &rows.levels[at],
            &rows.bases,
            at,
            t,
        )
    }
}
