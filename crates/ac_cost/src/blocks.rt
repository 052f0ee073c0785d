//! What blocks have of runs.
ghost use Rattle.std.specs.Prelude.{◌≡◌, ◌<◌, ◌≤◌, ◌+◌, ◌*◌, ◌^◌, ℕ, slice_index};
ghost use Rattle.ac_base.specs.Fit.{list_bits, exponent_bits, side_of};
ghost use Rattle.ac_base.specs.Shape.{IsSpan};
ghost use Rattle.ac_base.specs.Spans.{greatest_kind};
ghost use Rattle.ac_cost.specs.Runs.{has};
ghost use Rattle.ac_cost.specs.Sixths.{in_blocks, costs_by_part};

use ac_base::{Lead, Parts, Run, Shape, Span, side_bits};
use ac_expo::groups;

/// The bits of a list of exponents in so many groups, with chbwcod and gainrng where the channel has them (A/52 5.3.3, 7.1.3).
fn list_bits(lead: Lead, groups: u8) -> u32
    ensures value { result ≡ list_bits lead groups }
    ensures bound { result ≤ 12 + 7 * groups }
{
    let grouped = 7 * u32::from(groups);
    match lead {
        Lead::Free => 6 + 4 + grouped + 2,
        Lead::Coupled => 4 + grouped + 2,
        Lead::Coupling | Lead::Low => 4 + grouped,
    }
}

/// The exponent bits of a channel in a block, by its strategy code there: none where it reuses.
pub fn exponent_bits(code: u8, span: &Span) -> u32
    requires code { code ≤ greatest_kind span.now.lead }
    requires span { IsSpan span.now }
    ensures value { result ≡ exponent_bits code span.now }
    ensures bound { result ≤ 600 }
{
    if code == 0 {
        0
    } else {
        list_bits(span.lead, groups(code, span))
    }
}

/// Whether a run has a block.
pub fn has(run: &Run, block: u8) -> bool
    ensures value { result ≡ has run.now block }
{
    run.from <= block && block < run.to
}

/// A cost for each of the first blocks that a run has.
pub fn in_blocks(blocks: u8, run: &Run, cost: u32) -> u32
    requires few { blocks ≤ 6 }
    requires cost { cost ≤ 2 ^ 16 }
    ensures value { result ≡ in_blocks blocks run.now cost }
    ensures bound { result ≤ 2 ^ 16 * blocks }
{
    let mut sum = 0;
    for b in 0..blocks {
        if has(run, b) {
            sum += cost;
        }
    }
    sum
}

/// What a run costs in sixths of a bit by the bits of its exponents and the sixths of its mantissas in one of its blocks: in the
/// front, in the whole frame, and in the mantissas of block 5.
pub fn run_costs(exponents: u32, run: &Run, mantissas: u32) -> [u32; 3]
    requires exponents { exponents ≤ 600 }
    requires mantissas { mantissas ≤ 2 ^ 16 }
    ensures value { result ≡ costs_by_part exponents run.now mantissas }
    ensures bound { (part : ℕ) → slice_index result part ≤ 2 ^ 19 }
{
    let sent = 6 * exponents;
    let early = if run.from < 2 { sent } else { 0 };
    [
        early + in_blocks(2, run, mantissas),
        sent + in_blocks(6, run, mantissas),
        if has(run, 5) { mantissas } else { 0 },
    ]
}

/// The side bits of the parts, with how many they can be.
pub fn side(shape: &Shape) -> Parts
    ensures value { result ≡ side_of shape.now.acmod shape.now.lfe shape.now.couple }
    ensures front { result.front ≤ 2000 }
    ensures total { result.total ≤ 2000 }
{
    side_bits(shape)
}
