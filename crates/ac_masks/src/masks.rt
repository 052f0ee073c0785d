//! The bases of the masks of all runs of a channel, band by band.
ghost use Rattle.std.specs.Prelude.{◌≡◌, ◌≤◌, ◌<◌, ◌+◌, ◌-◌, ℕ, [], slice_index, slice_index_or};
ghost use Rattle.ac_base.specs.Allocation.{bands};
ghost use Rattle.ac_base.specs.Shape.{IsSpan};
ghost use Rattle.ac_alloc.specs.Excitation.{lowcomp, first_rise, AreBands};
ghost use Rattle.ac_sixths.specs.Runs.{column};
ghost use Rattle.ac_masks.specs.Adding.{most_sum, IsAddTable};
ghost use Rattle.ac_masks.specs.Bases.{base_by, AreBandBases};
ghost use Rattle.ac_masks.specs.Densities.{density_in};
ghost use Rattle.ac_masks.specs.Steps.{begin_of, low_step, excite_step, base_step, IsReady};

use crate::additions::AddTable;
use crate::densities::{densities, zeros};
use crate::gains::{fast_decay, fast_gain, fast_start, knee, slow_decay, slow_gain, slow_start};
use crate::state::{begin_behind, compensate, excite, fade, leak_on, rebase};
use ac_alloc::Params;
use ac_base::{Lead, Span, band_of, hearing};

/// One behind the first band from 2 on, and before `end`, that is at most the next, and 7 where there is none.
fn begin_rows(end: usize, density: &[[u16; 64]; 50]) -> [u16; 64]
    requires low { 2 ≤ end }
    requires high { end ≤ 7 }
    ensures { (l : ℕ) → l < 64 → slice_index result l ≡ first_rise (density_in density.now l) 2 (end - 2) }
{
    let mut begin = [7u16; 64];
    for n in 0..end - 2 {
        let b = end - 1 - n;
        begin_behind(&mut begin, &density[b], &density[b + 1], b as u16 + 1);
    }
    begin
}

/// Where the leaks begin.
fn begins(lead: Lead, density: &[[u16; 64]; 50]) -> [u16; 64]
    ensures { (l : ℕ) → l < 64 → slice_index result l ≡ begin_of lead (density_in density.now l) }
{
    match lead {
        Lead::Free | Lead::Coupled => begin_rows(7, density),
        Lead::Coupling => zeros(),
        Lead::Low => begin_rows(6, density),
    }
}

/// The compensation of a band by that of the band before.
fn lower(density: &[[u16; 64]; 50], b: usize, low: &mut [u16; 64])
    requires band { b < bands }
    requires density { (l b : ℕ) → density_in density.now l b ≤ most_sum }
    ensures { (l : ℕ) → l < 64
        → slice_index low.new l ≡ lowcomp (slice_index low.old l) (density_in density.now l b) (density_in density.now l (b + 1)) b }
{
    if b < 20 {
        compensate(low, &density[b], &density[b + 1], b);
    } else {
        fade(low);
    }
}

/// The same by what the channel is.
fn low_on(lead: Lead, density: &[[u16; 64]; 50], b: usize, low: &mut [u16; 64])
    requires band { b < bands }
    requires density { (l b : ℕ) → density_in density.now l b ≤ most_sum }
    ensures { (l : ℕ) → l < 64 → slice_index low.new l
        ≡ low_step lead (slice_index low.old l) (density_in density.now l b) (density_in density.now l (b + 1)) b }
{
    match lead {
        Lead::Free | Lead::Coupled => lower(density, b, low),
        Lead::Coupling => {}
        Lead::Low => {
            if b < 6 {
                lower(density, b, low);
            }
        }
    }
}

/// All rows before a band: their compensation and their leaks, which stand raised.
#[derive(Clone, Copy)]
struct Rows {
    low: [u16; 64],
    fast: [u16; 64],
    slow: [u16; 64],
}

/// Before the first band.
fn start_rows(p: &Params, lead: Lead, from: usize, to: usize, density: &[[u16; 64]; 50]) -> Rows
    requires bands { AreBands lead from to }
    ensures ready { (l : ℕ) → l < 64 → IsReady p.now lead (density_in density.now l) from from
        (slice_index result.low l) (slice_index result.fast l) (slice_index result.slow l) }
    ensures small { (l : ℕ) → l < 64 → (slice_index result.fast l ≤ 9648) × (slice_index result.slow l ≤ 9648) }
{
    Rows {
        low: [0; 64],
        fast: [fast_start(p); 64],
        slow: [slow_start(p); 64],
    }
}

/// All rows from before band b to before the next.
fn advance(
    p: &Params,
    lead: Lead,
    from: usize,
    to: usize,
    b: usize,
    begin: &[u16; 64],
    density: &[[u16; 64]; 50],
    rows: &mut Rows,
)
    requires bands { AreBands lead from to }
    requires low { from ≤ b }
    requires high { b < to }
    requires most { to ≤ bands }
    requires begin { (l : ℕ) → l < 64 → slice_index begin.now l ≡ begin_of lead (density_in density.now l) }
    requires density { (l b : ℕ) → density_in density.now l b ≤ most_sum }
    requires ready { (l : ℕ) → l < 64 → IsReady p.now lead (density_in density.now l) from b
        (slice_index rows.old.low l) (slice_index rows.old.fast l) (slice_index rows.old.slow l) }
    requires small { (l : ℕ) → l < 64 → (slice_index rows.old.fast l ≤ 9648) × (slice_index rows.old.slow l ≤ 9648) }
    ensures ready { (l : ℕ) → l < 64 → IsReady p.now lead (density_in density.now l) from (b + 1)
        (slice_index rows.new.low l) (slice_index rows.new.fast l) (slice_index rows.new.slow l) }
    ensures small { (l : ℕ) → l < 64 → (slice_index rows.new.fast l ≤ 9648) × (slice_index rows.new.slow l ≤ 9648) }
{
    low_on(lead, density, b, &mut rows.low);
    leak_on(
        &mut rows.fast,
        begin,
        b as u16,
        &density[b],
        fast_gain(p),
        fast_decay(p),
    );
    leak_on(
        &mut rows.slow,
        begin,
        b as u16,
        &density[b],
        slow_gain(p),
        slow_decay(p),
    );
}

/// The bases of band b.
fn band_bases(
    rows: &Rows,
    begin: &[u16; 64],
    b: usize,
    density: &[u16; 64],
    knee: u16,
    threshold: u16,
) -> [u16; 64]
    requires band { b < bands }
    requires small { (l : ℕ) → l < 64 → (slice_index rows.now.fast l ≤ 9648) × (slice_index rows.now.slow l ≤ 9648) }
    requires knee { knee ≤ 2816 }
    requires threshold { threshold ≤ 2112 }
    ensures values { (l : ℕ) → l < 64 → slice_index result l
        ≡ base_step (excite_step (slice_index rows.now.fast l) (slice_index rows.now.slow l) (slice_index rows.now.low l) (slice_index begin.now l) b)
        (slice_index density.now l) knee threshold }
    ensures bounds { (l : ℕ) → slice_index result l ≤ 2232 }
{
    let mut out = [0u16; 64];
    excite(&rows.fast, &rows.slow, &rows.low, begin, b as u16, &mut out);
    rebase(&mut out, density, knee, threshold);
    out
}

fn clear(out: &mut [[u16; 64]; 50])
    ensures { (l b : ℕ) → slice_index (slice_index_or out.new b []) l ≤ 2232 }
{
    for b in 0..50usize {
        out[b] = zeros();
    }
}

/// The bases of the bands from `from` up to but not `to`.
fn mask_bands(
    p: &Params,
    lead: Lead,
    from: usize,
    to: usize,
    density: &[[u16; 64]; 50],
    out: &mut [[u16; 64]; 50],
)
    requires bands { AreBands lead from to }
    requires order { from ≤ to }
    requires most { to ≤ bands }
    requires density { (l b : ℕ) → density_in density.now l b ≤ most_sum }
    ensures values { (l b : ℕ) → l < 64 → from ≤ b → b < to
        → slice_index (slice_index_or out.new b []) l ≡ base_by p.now lead from (density_in density.now l) b }
    ensures bounds { (l b : ℕ) → slice_index (slice_index_or out.new b []) l ≤ 2232 }
{
    clear(out);
    let begin = begins(lead, density);
    let mut rows = start_rows(p, lead, from, to, density);
    for b in from..to {
        advance(p, lead, from, to, b, &begin, density, &mut rows);
        out[b] = band_bases(
            &rows,
            &begin,
            b,
            &density[b],
            knee(p),
            hearing(p.fscod, b as u8),
        );
    }
}

/// Writes the bases of the masks of 63 runs of a channel by the levels of their exponents: levels stand by row and bin, bases
/// by band and row.
pub fn fill_bases(
    table: &AddTable,
    p: &Params,
    span: &Span,
    levels: &[[u8; 256]; 63],
    out: &mut [[u16; 64]; 50],
)
    requires table { IsAddTable table.now.rises }
    requires span { IsSpan span.now }
    ensures { (row : ℕ) → row < 63 → AreBandBases p.now span.now (slice_index_or levels.now row []) (column out.new row) }
{
    let density = densities(&table.rises, levels, span.start, span.end);
    let from = band_of(span.start) as usize;
    let to = band_of(span.end - 1) as usize + 1;
    mask_bands(p, span.lead, from, to, &density, out);
}
