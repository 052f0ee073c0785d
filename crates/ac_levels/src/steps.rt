//! Steps of single blocks as levels: step g stands at place 16 + g.
ghost use Rattle.std.specs.Prelude.{◌≡◌, ℕ, ◌+◌, ◌-◌, ◌*◌, ◌/◌, ◌<◌, ◌≤◌, ◌⊎◌, List, max, slice_index};
ghost use Rattle.ac_base.specs.Shape.{IsSpan};
ghost use Rattle.ac_expo.specs.Greatest.{capped};
ghost use Rattle.ac_base.specs.Spans.{IsKind, is_coupling};
ghost use Rattle.ac_base.specs.Spans.{width};
ghost use Rattle.ac_expo.specs.Steps.{ahead, last_step};
ghost use Rattle.ac_levels.specs.Reach.{AreSteps, ArePairs, IsBlank, IsZeroOutside};
ghost use Rattle.ac_levels.specs.Rows.{level_of, AreLevels};

use crate::lanes::pair_lanes;
use crate::smooth::smooth;
use ac_base::{Lead, Span};
use ac_expo::groups;

/// The level of a raw exponent.
#[inline]
fn level(raw: u8) -> u8
    ensures { result ≡ level_of raw }
{
    8 * 24u8.saturating_sub(raw)
}

/// The step of the first bin in kind 1.
fn first_step(lead: Lead) -> usize
    ensures value { result ≡ ahead 1 lead }
    ensures bound { result ≤ 1 }
{
    match lead {
        Lead::Coupling => 1,
        Lead::Free | Lead::Coupled | Lead::Low => 0,
    }
}

/// The levels of the bins from `start` up to but not `end`, from place `at` on.
fn place_bins(row: &[u8; 256], start: usize, end: usize, at: usize, places: &mut [u8; 288])
    requires order { start ≤ end }
    requires end { end ≤ 256 }
    requires place { at ≤ 17 }
    requires blank { IsBlank places.old }
    ensures inside { (i : ℕ) → start + i < end → slice_index places.new (at + i) ≡ level_of (slice_index row.now (start + i)) }
    ensures outside { (p : ℕ) → ((p < at) ⊎ (at + (end - start) ≤ p)) → slice_index places.new p ≡ 0 }
{
    for k in start..end {
        places[at + (k - start)] = level(row[k]);
    }
}

/// The exponent of bin 0 has 4 bits, where it is no step of the coupling channel.
fn cap(lead: Lead, places: &mut [u8; 288])
    ensures first { (exponent : ℕ) → slice_index places.old 16 ≡ level_of exponent
        → slice_index places.new 16 ≡ level_of (capped (is_coupling lead) 0 exponent) }
    ensures others { (p : ℕ) → (p ≡ 16 → ⊥) → slice_index places.new p ≡ slice_index places.old p }
{
    match lead {
        Lead::Coupling => {}
        Lead::Free | Lead::Coupled | Lead::Low => places[16] = places[16].max(72),
    }
}

/// The steps of a block in kind 1, which are the bins.
pub(crate) fn place_block(raw: &[[u8; 256]; 6], block: u8, span: &Span, places: &mut [u8; 288])
    requires block { block < 6 }
    requires span { IsSpan span.now }
    requires blank { IsBlank places.old }
    ensures { AreSteps 1 span.now raw.now block places.new }
{
    let row = &raw[usize::from(block)];
    let at = 16 + first_step(span.lead);
    place_bins(
        row,
        usize::from(span.start),
        usize::from(span.end),
        at,
        places,
    );
    cap(span.lead, places);
}

/// The steps of the next kind in rounds of sixteen: step 0, and then the greater level of two steps.
pub(crate) fn pairs(old: &[u8; 288], rounds: usize, new: &mut [u8; 288])
    requires most { rounds ≤ 8 }
    requires blank { IsBlank new.old }
    ensures { ArePairs (16 * rounds + 1) old.now new.new }
{
    new[16] = old[16];
    for j in 0..rounds {
        pair_lanes(old, 17 + 32 * j, new, 17 + 16 * j);
    }
}

/// The levels of n steps, each but step 0 at both of its steps of the kind before.
fn double(old: &[u8; 288], n: usize, new: &mut [u8; 288])
    requires some { 0 < n }
    requires most { n ≤ 128 }
    ensures { (s : ℕ) → s + 1 < 2 * n → slice_index new.new (16 + s) ≡ slice_index old.now (16 + (s + 1) / 2) }
{
    new[16] = old[16];
    for g in 1..n {
        let level = old[16 + g];
        new[15 + 2 * g] = level;
        new[16 + 2 * g] = level;
    }
}

/// How many steps are spread: all that have bins, in whole sixteens.
pub(crate) fn window(kind: u8, span: &Span) -> usize
    requires kind { IsKind kind span.now }
    requires span { IsSpan span.now }
    ensures whole { last_step kind span.now < result }
    ensures bound { result * width kind ≤ 256 }
{
    (3 * usize::from(groups(kind, span)) + 16) / 16 * 16
}

/// Copies levels from a step on to the bins from `start` on.
fn copy_bins(places: &[u8; 288], first: usize, start: usize, row: &mut [u8; 256])
    requires start { start ≤ 256 }
    requires first { first ≤ 1 }
    ensures { (i : ℕ) → start + i < 256 → slice_index row.new (start + i) ≡ slice_index places.now (16 + (first + i)) }
{
    for k in start..256 {
        row[k] = places[16 + (first + (k - start))];
    }
}

/// Arrays that are used again for each block.
#[derive(Clone, Copy)]
pub(crate) struct Scratch {
    odd: [u8; 288],
    even: [u8; 288],
    wide: [u8; 288],
    wider: [u8; 288],
}

impl Scratch {
    /// Arrays of zeros.
    pub(crate) fn new() -> Scratch
        ensures odd { IsBlank result.odd }
        ensures even { IsBlank result.even }
    {
        Scratch {
            odd: [0; 288],
            even: [0; 288],
            wide: [0; 288],
            wider: [0; 288],
        }
    }
}

/// Copies the levels of n steps to their bins.
fn spread_out(
    old: &[u8; 288],
    kind: u8,
    n: usize,
    first: usize,
    start: usize,
    wide: &mut [u8; 288],
    wider: &mut [u8; 288],
    row: &mut [u8; 256],
)
    requires low { 1 ≤ kind }
    requires kind { kind ≤ 3 }
    requires some { 0 < n }
    requires most { n * width kind ≤ 256 }
    requires start { start ≤ 256 }
    requires first { first ≤ 1 }
    ensures { (i : ℕ) → start + i < 256 → (first + i + (width kind - 1)) / width kind < n
        → slice_index row.new (start + i) ≡ slice_index old.now (16 + (first + i + (width kind - 1)) / width kind) }
{
    match kind {
        1 => copy_bins(old, first, start, row),
        2 => {
            double(old, n, wide);
            copy_bins(wide, first, start, row);
        }
        _ => {
            double(old, n, wide);
            double(wide, 2 * n, wider);
            copy_bins(wider, first, start, row);
        }
    }
}

/// The levels of the list of a block, of which these are the steps.
pub(crate) fn fill_block(
    places: &[u8; 288],
    kind: u8,
    n: usize,
    span: &Span,
    scratch: &mut Scratch,
    row: &mut [u8; 256],
)
    requires kind { IsKind kind span.now }
    requires span { IsSpan span.now }
    requires whole { last_step kind span.now < n }
    requires bound { n * width kind ≤ 256 }
    requires odd { IsZeroOutside n scratch.old.odd }
    requires even { IsZeroOutside n scratch.old.even }
    ensures levels { (raw : List (List ℕ)) (block : ℕ) → AreSteps kind span.now raw block places.now
        → AreLevels kind span.now raw block (block + 1) row.new }
    ensures odd { IsZeroOutside n scratch.new.odd }
    ensures even { IsZeroOutside n scratch.new.even }
{
    smooth(places, n, &mut scratch.odd, &mut scratch.even);
    let first = first_step(span.lead);
    let start = usize::from(span.start);
    spread_out(
        &scratch.even,
        kind,
        n,
        first,
        start,
        &mut scratch.wide,
        &mut scratch.wider,
        row,
    );
}
