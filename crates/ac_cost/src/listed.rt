//! What a run has at every offset: its exponents and its mask.
ghost use Rattle.std.specs.Prelude.{◌<◌, ℕ, [], slice_index_or};
ghost use Rattle.ac_base.specs.Allocation.{bins};
ghost use Rattle.ac_expo.specs.Raw.{channels};
ghost use Rattle.ac_alloc.specs.Integration.{AreExponents};
ghost use Rattle.ac_cost.specs.Runs.{IsRunOf};
ghost use Rattle.ac_cost.specs.Lists.{IsListed, AreListed};

use crate::rows::{row_count, run_at};
use ac_alloc::{Mask, Params};
use ac_base::{Run, Shape};
use ac_expo::{RawExps, greatest};

/// The exponents of a run by bin, and its mask.
#[derive(Clone, Copy, Debug)]
pub struct Listed {
    pub exps: [u8; 256],
    pub mask: Mask,
}

/// Those of a run of coded channel c.
fn list_run(shape: &Shape, raw: &RawExps, c: u8, run: &Run) -> Listed
    requires run { IsRunOf shape.now c run.now }
    ensures value { IsListed shape.now raw.now.e c run.now result }
    ensures small { AreExponents 0 bins result.exps }
{
    let span = shape.span(c);
    let mut exps = [24; 256];
    greatest(&raw.e[c as usize], run, &span, &mut exps);
    let mask = Mask::of(&Params::encoder(shape.fscod), &span, &exps);
    Listed { exps, mask }
}

/// Those of all runs of coded channel c, by row.
fn list_channel(shape: &Shape, raw: &RawExps, c: u8, out: &mut [Listed; 63])
    requires channel { c < channels shape.now }
    ensures value { AreListed shape.now raw.now.e c out.new }
{
    let count = row_count(shape.span(c).lead);
    for row in 0..count {
        out[row as usize] = list_run(shape, raw, c, &run_at(row));
    }
}

/// Those of all coded channels.
pub fn list_channels(shape: &Shape, raw: &RawExps, out: &mut [[Listed; 63]; 7])
    ensures value { (c : ℕ) → c < channels shape.now → AreListed shape.now raw.now.e c (slice_index_or out.new c []) }
{
    for c in 0..shape.coded() {
        list_channel(shape, raw, c, &mut out[c as usize]);
    }
}
