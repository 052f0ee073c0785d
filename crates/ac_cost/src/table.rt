//! What the runs of a frame cost at an offset.
ghost use Rattle.std.specs.Prelude.{◌≡◌, ◌≤◌, ◌^◌, ◌↔◌, IsTrue, ℕ, slice_index};
ghost use Rattle.ac_mant.specs.Counts.{tally};
ghost use Rattle.ac_cost.specs.Records.{at_offset};
ghost use Rattle.ac_cost.specs.Parts.{parts_at, FitsAt};
ghost use Rattle.ac_cost.specs.Runs.{IsRunOf, TakesLow};
ghost use Rattle.ac_cost.specs.Prices.{AreFew};
ghost use Rattle.ac_cost.specs.Pointers.{run_tally};
ghost use Rattle.ac_cost.specs.Sixths.{run_bits, sixths_by_part};

use crate::blocks::{exponent_bits, run_costs};
use crate::costs::RunCosts;
use crate::lists::RunLists;
use crate::parts::{assign_fits, assign_parts};
use crate::rows::row;
use ac_base::{Parts, Run, Shape};
use ac_expo::{Assign, RawExps};
use ac_mant::{Counts, sixths};
use std::marker::Model;

/// For one shape, raw exponents and offset: what every run of every coded channel costs. Contracts see these three.
#[derive(Drop)]
pub struct RunTable {
    pub(crate) shape: Shape,
    pub(crate) raw: RawExps,
    pub(crate) t: u16,
    pub(crate) of: [[Counts; 63]; 7],
}

impl Model for RunTable {
    ghost use Rattle.ac_cost.specs.Records.{AtOffset};

    ghost Value = { AtOffset };

    ghost use Rattle.ac_cost.specs.Seen.{offset_of, AreCounts};

    ghost view = { offset_of };

    ghost invariant = { AreCounts };
}

impl RunTable {
    /// The table at an offset t = 16 csnroffst + fsnroffst, from 0 to 1023; at 0 all SNR offset codes are 0.
    pub fn build(shape: &Shape, raw: &RawExps, t: u16) -> RunTable
        requires { t ≤ 1023 }
        ensures value { result ≡ at_offset shape.now raw.now.e t }
    {
        RunLists::of(shape, raw).at(t)
    }

    /// The mantissas of a run of a coded channel in one of its blocks, which are the same in each (A/52 7.3.5).
    pub fn run_counts(&self, channel: u8, run: &Run) -> Counts
        requires { IsRunOf self.now.shape channel run.now }
        ensures value { tally result ≡ run_tally self.now.shape self.now.raw self.now.t channel run.now }
        ensures bound { AreFew 1 result }
    {
        self.of[channel as usize][row(run)]
    }

    /// The bits of a run's exponents, chbwcod and gainrng with them (A/52 5.3.3, 7.1.3).
    pub fn run_exponents(&self, channel: u8, run: &Run) -> u32
        requires { IsRunOf self.now.shape channel run.now }
        ensures value { result ≡ run_bits self.now.shape channel run.now }
        ensures bound { result ≤ 600 }
    {
        exponent_bits(run.kind, &self.shape.span(channel))
    }

    /// What a run costs in sixths of a bit, each mantissa with its share of a group: in the front, in the whole frame, and in the
    /// mantissas of block 5.
    pub fn run_sixths(&self, channel: u8, run: &Run) -> [u32; 3]
        requires { IsRunOf self.now.shape channel run.now }
        ensures value { result ≡ sixths_by_part self.now.shape self.now.raw self.now.t channel run.now }
        ensures bound { (part : ℕ) → slice_index result part ≤ 2 ^ 19 }
    {
        let mantissas = sixths(&self.run_counts(channel, run));
        run_costs(self.run_exponents(channel, run), run, mantissas)
    }
    /// The bits of the three parts of a frame with an assignment of strategies whose LFE codes are 0 and 1.
    pub fn parts(&self, a: &Assign) -> Parts
        requires low { TakesLow self.now.shape a.now.w }
        ensures value { result ≡ parts_at self.now.shape self.now.raw self.now.t a.now.w }
    {
        assign_parts(&self.shape, self, a)
    }

    /// Whether an assignment of strategies whose LFE codes are 0 and 1 fits the frame.
    pub fn fits(&self, a: &Assign) -> bool
        requires low { TakesLow self.now.shape a.now.w }
        ensures value { IsTrue result ↔ FitsAt self.now.shape self.now.raw self.now.t a.now.w }
    {
        assign_fits(&self.shape, self, a)
    }
}

impl RunCosts for RunTable {
    ghost offset = { λ v. v };

    fn run_counts(&self, channel: u8, run: &Run) -> Counts {
        RunTable::run_counts(self, channel, run)
    }

    fn run_sixths(&self, channel: u8, run: &Run) -> [u32; 3] {
        RunTable::run_sixths(self, channel, run)
    }
}
