//! The mantissas of a run at an offset.
ghost use Rattle.std.specs.Prelude.{◌≡◌, ◌<◌, ◌≤◌, ◌+◌, ◌*◌, ◌-◌, pos, ◌-ℤ◌, slice_index};
ghost use Rattle.ac_base.specs.Counts.{none, with_one};
ghost use Rattle.ac_base.specs.Fit.{tally_bins, tally_span};
ghost use Rattle.ac_base.specs.Shape.{IsSpan};
ghost use Rattle.ac_alloc.specs.Keys.{place};
ghost use Rattle.ac_mant.specs.Counts.{tally};
ghost use Rattle.ac_sixths.specs.Runs.{column};
ghost use Rattle.ac_windows.specs.Packing.{packed, pointer_at, pointer_of};

use ac_base::{Span, band_of, baptab};
use ac_mant::Counts;

/// What one mantissa counts, by its pointer, in lanes of 16 bits.
static LANES: [u64; 16] = [
    0,
    0x1_0000,
    0x1_0000_0000,
    3,
    0x1_0000_0000_0000,
    4,
    5,
    6,
    7,
    8,
    9,
    10,
    11,
    12,
    14,
    16,
];

/// What one mantissa counts.
#[inline]
fn lanes(bap: u8) -> u64
    requires { bap ≤ 15 }
    ensures { result ≡ packed (with_one none bap) }
{
    LANES[bap as usize]
}

/// The place in the table of pointers at an index.
#[inline]
fn address(i: usize) -> u8
    ensures value { result ≡ place (pos 3000 -ℤ pos i) }
    ensures bound { result ≤ 63 }
{
    (i.saturating_sub(1713) / 8).min(63) as u8
}

/// The pointer at an index.
#[inline]
fn pointer(i: usize) -> u8
    ensures value { result ≡ pointer_at i }
    ensures bound { result ≤ 15 }
{
    baptab(address(i))
}

#[inline]
fn entry(row: &[u16; 64], i: usize) -> u16
    requires { i < 64 }
    ensures { result ≡ slice_index row.now i }
{
    row[i]
}

/// The base of a band in a column.
#[inline]
fn base_at(bases: &[[u16; 64]; 50], b: usize, i: usize) -> u16
    requires row { b < 50 }
    requires column { i < 64 }
    ensures { result ≡ slice_index (column bases.now i) b }
{
    entry(&bases[b], i)
}

/// What the mantissas of the bins from `start` up to but not `end` count, at an offset t.
fn count_bins(
    levels: &[u8; 256],
    bases: &[[u16; 64]; 50],
    row: usize,
    start: u8,
    end: u8,
    t: u16,
) -> u64
    requires order { start ≤ end }
    requires end { end ≤ 253 }
    requires row { row < 64 }
    requires t { t ≤ 1023 }
    ensures { result ≡ packed (tally_bins (pointer_of levels.now (column bases.now row) t) start (end - start)) }
{
    let mut sum = 0u64;
    for k in start..end {
        let base = base_at(bases, band_of(k) as usize, row) as usize;
        sum += lanes(pointer(base + 4 * levels[k as usize] as usize + t as usize));
    }
    sum
}

/// The mantissas of a run that is held in a row, at an offset t.
pub(crate) fn count_row(
    span: &Span,
    levels: &[u8; 256],
    bases: &[[u16; 64]; 50],
    row: usize,
    t: u16,
) -> Counts
    requires span { IsSpan span.now }
    requires row { row < 64 }
    requires t { t ≤ 1023 }
    ensures { tally result ≡ tally_span (pointer_of levels.now (column bases.now row) t) span.now }
{
    let sum = count_bins(levels, bases, row, span.start, span.end, t);
    Counts {
        linear: (sum % 0x1_0000) as u32,
        n1: (sum / 0x1_0000 % 0x1_0000) as u32,
        n2: (sum / 0x1_0000_0000 % 0x1_0000) as u32,
        n4: (sum / 0x1_0000_0000_0000) as u32,
    }
}
