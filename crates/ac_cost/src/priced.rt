//! What the mantissas of runs are at an offset.
ghost use Rattle.std.specs.Prelude.{◌≡◌, ◌<◌, ◌≤◌, ℕ, List, [], slice_index, slice_index_or};
ghost use Rattle.ac_base.specs.declared.runs.Run.{Run};
ghost use Rattle.ac_base.specs.Allocation.{bins};
ghost use Rattle.ac_base.specs.Fit.{tally_span};
ghost use Rattle.ac_base.specs.Shape.{IsSpan};
ghost use Rattle.ac_base.specs.Spans.{IsIn};
ghost use Rattle.ac_expo.specs.Raw.{channels, channel_span};
ghost use Rattle.ac_alloc.specs.Integration.{AreExponents};
ghost use Rattle.ac_mant.specs.Counts.{tally};
ghost use Rattle.ac_cost.specs.Pointers.{run_tally};
ghost use Rattle.ac_cost.specs.Rows.{rows_of};
ghost use Rattle.ac_cost.specs.Lists.{not_listed, IsListed, AreListed};
ghost use Rattle.ac_cost.specs.Prices.{ArePriced};

use crate::listed::Listed;
use crate::rows::row_count;
use ac_alloc::baps;
use ac_base::{Shape, Span};
use ac_mant::Counts;

/// No mantissas.
pub const NONE: Counts = Counts {
    linear: 0,
    n1: 0,
    n2: 0,
    n4: 0,
};

/// Counts the mantissas of the bins of a span by their pointers.
fn count(pointers: &[u8; 256], span: &Span) -> Counts
    requires span { IsSpan span.now }
    requires bound { (k : ℕ) → IsIn span.now k → slice_index pointers.now k ≤ 15 }
    ensures { tally result ≡ tally_span (slice_index pointers.now) span.now }
{
    let mut counts = NONE;
    for k in span.start..span.end {
        counts.add(pointers[k as usize]);
    }
    counts
}

/// The mantissas of a run of coded channel c in one of its blocks, at an offset.
fn price(shape: &Shape, c: u8, t: u16, listed: &Listed) -> Counts
    requires channel { c < channels shape.now }
    requires small { AreExponents 0 bins listed.now.exps }
    requires t { t ≤ 1023 }
    ensures { (raw : List (List (List ℕ))) (run : Run) → IsListed shape.now raw c run listed.now
        → tally result ≡ run_tally shape.now raw t c run }
{
    let span = shape.span(c);
    let mut pointers = [0; 256];
    baps(&listed.mask, &span, &listed.exps, t, t == 0, &mut pointers);
    count(&pointers, &span)
}

/// Those of all runs of coded channel c, by row.
fn price_channel(shape: &Shape, c: u8, t: u16, lists: &[Listed; 63], out: &mut [Counts; 63])
    requires channel { c < channels shape.now }
    requires small { (row : ℕ) → row < rows_of (channel_span shape.now c).lead
        → AreExponents 0 bins (slice_index_or lists.now row not_listed).exps }
    requires t { t ≤ 1023 }
    ensures { (raw : List (List (List ℕ))) → AreListed shape.now raw c lists.now → ArePriced shape.now raw t c out.new }
{
    let count = row_count(shape.span(c).lead);
    for row in 0..count {
        out[row as usize] = price(shape, c, t, &lists[row as usize]);
    }
}

/// Those of all coded channels.
pub fn price_channels(shape: &Shape, t: u16, lists: &[[Listed; 63]; 7], out: &mut [[Counts; 63]; 7])
    requires small { (c row : ℕ) → c < channels shape.now → row < rows_of (channel_span shape.now c).lead
        → AreExponents 0 bins (slice_index_or (slice_index_or lists.now c []) row not_listed).exps }
    requires t { t ≤ 1023 }
    ensures { (raw : List (List (List ℕ))) (c : ℕ) → c < channels shape.now → AreListed shape.now raw c (slice_index_or lists.now c [])
        → ArePriced shape.now raw t c (slice_index_or out.new c []) }
{
    for c in 0..shape.coded() {
        price_channel(shape, c, t, &lists[c as usize], &mut out[c as usize]);
    }
}
