//! The exponents of a run: the greatest list that its kind can spell and that is at most the raw exponents.
ghost use Rattle.std.specs.Prelude.{◌≡◌, ℕ, ◌+◌, ◌-◌, ◌*◌, ◌<◌, ◌≤◌, min, slice_index};
ghost use Rattle.ac_base.specs.Spans.{IsIn, IsKind, is_coupling};
ghost use Rattle.ac_base.specs.Shape.{IsSpan};
ghost use Rattle.ac_expo.specs.Steps.{step_of};
ghost use Rattle.ac_expo.specs.Greatest.{IsGreatest, IsByFormula, bin_least, step_least, capped};

use crate::smooth::smooth;
use crate::steps::{coupling, groups, step};
use ac_base::{Lead, Run, Span};

/// Lowers each bin of the span to that of a row.
fn lower_bins(row: &[u8; 256], span: &Span, bins: &mut [u8; 256])
    requires { span.now.end ≤ 253 }
    ensures { (k : ℕ) → IsIn span.now k → slice_index bins.new k ≡ min (slice_index bins.old k) (slice_index row.now k) }
{
    for k in usize::from(span.start)..usize::from(span.end) {
        bins[k] = bins[k].min(row[k]);
    }
}

/// The least of each bin of the span over the blocks of the run, at most 24.
fn least_of_blocks(raw: &[[u8; 256]; 6], run: &Run, span: &Span) -> [u8; 256]
    requires order { run.now.from < run.now.to }
    requires blocks { run.now.to ≤ 6 }
    requires end { span.now.end ≤ 253 }
    ensures { (k : ℕ) → IsIn span.now k → slice_index result k ≡ bin_least raw.now run.now.from (run.now.to - run.now.from) k }
{
    let mut bins = [24; 256];
    for b in run.from..run.to {
        lower_bins(&raw[usize::from(b)], span, &mut bins);
    }
    bins
}

/// The least of each step over its bins below the end, at most 24.
fn least_of_steps(bins: &[u8; 256], kind: u8, span: &Span) -> [u8; 256]
    requires kind { IsKind kind span.now }
    requires span { IsSpan span.now }
    ensures value { (g : ℕ) → g < 256 → slice_index result g
        ≡ step_least kind span.now (slice_index bins.now) (span.now.end - span.now.start) g }
    ensures bound { (g : ℕ) → slice_index result g ≤ 24 }
{
    let mut steps = [24; 256];
    for k in usize::from(span.start)..usize::from(span.end) {
        let at = step(kind, span, k);
        steps[at] = steps[at].min(bins[k]);
    }
    steps
}

/// The exponent of bin 0 has 4 bits, where it is no step of the coupling channel.
fn cap(lead: Lead, steps: &mut [u8; 256])
    requires { (g : ℕ) → slice_index steps.old g ≤ 24 }
    ensures bound { (g : ℕ) → slice_index steps.new g ≤ 24 }
    ensures first { slice_index steps.new 0 ≡ capped (is_coupling lead) 0 (slice_index steps.old 0) }
    ensures rest { (k : ℕ) → 0 < k → slice_index steps.new k ≡ slice_index steps.old k }
{
    if !coupling(lead) {
        steps[0] = steps[0].min(15);
    }
}

/// Gives each bin of the span the exponent of its step.
fn spread_out(steps: &[u8; 256], kind: u8, span: &Span, out: &mut [u8; 256])
    requires kind { IsKind kind span.now }
    requires span { IsSpan span.now }
    ensures value { (k : ℕ) → IsIn span.now k → slice_index out.new k ≡ slice_index steps.now (step_of kind span.now k) }
    ensures rest { (k : ℕ) → (IsIn span.now k → ⊥) → slice_index out.new k ≡ slice_index out.old k }
{
    for k in usize::from(span.start)..usize::from(span.end) {
        out[k] = steps[step(kind, span, k)];
    }
}

/// The exponents of a run (A/52 7.1.3): the pointwise greatest list that its kind can spell and that is at most the
/// raw exponents of each of its blocks. Entries outside the span stay as they were.
pub fn greatest(raw: &[[u8; 256]; 6], run: &Run, span: &Span, out: &mut [u8; 256])
    requires kind { IsKind run.now.kind span.now }
    requires span { IsSpan span.now }
    requires order { run.now.from < run.now.to }
    requires blocks { run.now.to ≤ 6 }
    ensures value { IsByFormula run.now.kind span.now raw.now run.now.from run.now.to out.new }
    ensures greatest { IsGreatest run.now.kind span.now raw.now run.now.from run.now.to out.new }
    ensures rest { (k : ℕ) → (IsIn span.now k → ⊥) → slice_index out.new k ≡ slice_index out.old k }
{
    let bins = least_of_blocks(raw, run, span);
    let mut steps = least_of_steps(&bins, run.kind, span);
    cap(span.lead, &mut steps);
    let count = 3 * usize::from(groups(run.kind, span)) + 1;
    smooth(&mut steps[..count]);
    spread_out(&steps, run.kind, span, out);
}

#[cfg(test)]
mod tests;
