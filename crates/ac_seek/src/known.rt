//! The mantissas of the runs that a search has met.
ghost use Rattle.std.specs.Prelude.{◌≡◌};
ghost use Rattle.ac_cost.specs.Runs.{IsRunOf};

use crate::board::{PLACES, is_run, place};
use crate::step::Step;
use ac_base::{Run, Shape};
use ac_cost::RunCosts;
use ac_mant::Counts;
use std::marker::Model;

/// What tells the costs of runs, with the mantissas of those that were counted once. Contracts see the shape, the raw exponents and
/// the offset.
#[derive(Drop)]
pub struct Known<'a, C: RunCosts> {
    table: &'a C,
    counts: [Option<Counts>; 882],
}

impl<'a, C: RunCosts> Model for Known<'a, C> {
    ghost use Rattle.ac_cost.specs.Records.{AtOffset};

    ghost Value = { AtOffset };

    ghost use Rattle.ac_seek.specs.Boards.{AreKnown};

    ghost view = { λ k. C.offset k.table.now };

    ghost invariant = { λ k. AreKnown (C.offset k.table.now) k.counts };
}

impl<'a, C: RunCosts> Known<'a, C> {
    /// Nothing is counted yet.
    pub fn new(table: &'a C) -> Known<'a, C>
        ensures { result ≡ C.offset table.now }
    {
        Known {
            table,
            counts: [None; PLACES],
        }
    }

    /// Counts the mantissas of a run.
    fn count(&mut self, step: &Step)
        requires { IsRunOf self.old.shape step.now.channel step.now.run }
        ensures { self.new ≡ self.old }
    {
        let at = place(step);
        if self.counts[at].is_none() {
            self.counts[at] = Some(self.table.run_counts(step.channel, &step.run));
        }
    }

    /// Counts those of these runs that a shape's coded channels can have.
    pub fn learn(&mut self, shape: &Shape, steps: &[Step])
        requires { self.old.shape ≡ shape.now }
        ensures { self.new ≡ self.old }
    {
        for step in steps {
            if is_run(shape, step.channel, &step.run) {
                self.count(step);
            }
        }
    }
}

impl<'a, C: RunCosts> RunCosts for Known<'a, C> {
    ghost offset = { λ v. v };

    fn run_counts(&self, channel: u8, run: &Run) -> Counts {
        let step = Step { channel, run: *run };
        match self.counts[place(&step)] {
            Some(counts) => counts,
            None => self.table.run_counts(channel, run),
        }
    }

    fn run_sixths(&self, channel: u8, run: &Run) -> [u32; 3] {
        self.table.run_sixths(channel, run)
    }
}
