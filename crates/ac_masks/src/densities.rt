//! The power spectral densities of the bands of all runs (A/52 7.2.2.2, 7.2.2.3).
ghost use Rattle.std.specs.Prelude.{◌≡◌, ◌⊎◌, ◌≤◌, ◌<◌, ◌+◌, ◌*◌, ◌-◌, ℕ, [], length, slice_index, slice_index_or};
ghost use Rattle.ac_base.specs.Allocation.{bands, bins};
ghost use Rattle.ac_alloc.specs.Integration.{logadd, folded};
ghost use Rattle.ac_masks.specs.Adding.{most_sum, IsAddTable};
ghost use Rattle.ac_masks.specs.Densities.{bin_density, band_density};

use crate::additions::added;
use ac_base::band_start;

#[inline]
fn entry(row: &[u8; 256], k: usize) -> u8
    requires { k < 256 }
    ensures { result ≡ slice_index row.now k }
{
    row[k]
}

/// The level of a bin in a row.
#[inline]
fn level_at(levels: &[[u8; 256]; 63], row: usize, k: usize) -> u8
    requires row { row < 63 }
    requires bin { k < 256 }
    ensures { result ≡ slice_index (slice_index_or levels.now row []) k }
{
    entry(&levels[row], k)
}

/// The density of a bin in a row.
#[inline]
fn density_at(levels: &[[u8; 256]; 63], row: usize, k: usize) -> usize
    requires row { row < 63 }
    requires bin { k < 256 }
    ensures value { result ≡ bin_density (slice_index_or levels.now row []) k }
    ensures bound { result ≤ 4080 }
{
    16 * usize::from(level_at(levels, row, k))
}

/// A sum with a bin of a row added.
#[inline]
fn added_at(
    sum: usize,
    rises: &[u16; 9633],
    levels: &[[u8; 256]; 63],
    row: usize,
    k: usize,
) -> usize
    requires table { IsAddTable rises.now }
    requires sum { sum ≤ most_sum }
    requires row { row < 63 }
    requires bin { k < 256 }
    ensures value { result ≡ logadd sum (bin_density (slice_index_or levels.now row []) k) }
    ensures bound { (m : ℕ) → 4080 ≤ m → sum ≤ m → result ≤ m + 64 }
{
    added(rises, sum, level_at(levels, row, k))
}

/// The densities of a bin in seven rows.
#[inline]
fn first_seven(levels: &[[u8; 256]; 63], at: usize, k: usize) -> [usize; 7]
    requires rows { at + 7 ≤ 63 }
    requires bin { k < 256 }
    ensures values { (i : ℕ) → i < 7 → slice_index result i ≡ bin_density (slice_index_or levels.now (at + i) []) k }
    ensures bounds { (i : ℕ) → i < 7 → slice_index result i ≤ 4080 }
{
    let mut sums = [0usize; 7];
    for i in 0..7usize {
        sums[i] = density_at(levels, at + i, k);
    }
    sums
}

/// Adds a bin in seven rows.
#[inline]
fn add_seven(
    sums: &mut [usize; 7],
    rises: &[u16; 9633],
    levels: &[[u8; 256]; 63],
    at: usize,
    k: usize,
)
    requires table { IsAddTable rises.now }
    requires sums { (i : ℕ) → i < 7 → slice_index sums.old i ≤ most_sum }
    requires rows { at + 7 ≤ 63 }
    requires bin { k < 256 }
    ensures values { (i : ℕ) → i < 7
        → slice_index sums.new i ≡ logadd (slice_index sums.old i) (bin_density (slice_index_or levels.now (at + i) []) k) }
    ensures bounds { (m i : ℕ) → 4080 ≤ m → i < 7 → slice_index sums.old i ≤ m → slice_index sums.new i ≤ m + 64 }
{
    for i in 0..7usize {
        sums[i] = added_at(sums[i], rises, levels, at + i, k);
    }
}

/// The densities of the bins from the first to the last in seven rows.
#[inline]
fn sum_seven(
    rises: &[u16; 9633],
    levels: &[[u8; 256]; 63],
    at: usize,
    first: usize,
    last: usize,
) -> [usize; 7]
    requires table { IsAddTable rises.now }
    requires rows { at + 7 ≤ 63 }
    requires order { first ≤ last }
    requires near { last < first + 24 }
    requires inside { last < 256 }
    ensures values { (i : ℕ) → i < 7
        → slice_index result i ≡ folded (bin_density (slice_index_or levels.now (at + i) [])) first (last - first) }
    ensures bounds { (i : ℕ) → i < 7 → slice_index result i ≤ most_sum }
{
    let mut sums = first_seven(levels, at, first);
    for k in first + 1..last + 1 {
        add_seven(&mut sums, rises, levels, at, k);
    }
    sums
}

#[inline]
fn put_seven(sums: &[usize; 7], at: usize, out: &mut [u16; 64])
    requires rows { at + 7 ≤ 63 }
    requires sums { (i : ℕ) → i < 7 → slice_index sums.now i ≤ most_sum }
    ensures here { (l : ℕ) → at ≤ l → l < at + 7 → slice_index out.new l ≡ slice_index sums.now (l - at) }
    ensures rest { (l : ℕ) → (l < at) ⊎ (at + 7 ≤ l) → slice_index out.new l ≡ slice_index out.old l }
{
    for l in at..at + 7 {
        out[l] = sums[l - at] as u16;
    }
}

/// Writes the densities of the bins from the first to the last in seven rows.
#[inline(never)]
fn fold_seven(
    rises: &[u16; 9633],
    levels: &[[u8; 256]; 63],
    at: usize,
    first: usize,
    last: usize,
    out: &mut [u16; 64],
)
    requires table { IsAddTable rises.now }
    requires rows { at + 7 ≤ 63 }
    requires order { first ≤ last }
    requires near { last < first + 24 }
    requires inside { last < 256 }
    ensures here { (l : ℕ) → at ≤ l → l < at + 7
        → slice_index out.new l ≡ folded (bin_density (slice_index_or levels.now l [])) first (last - first) }
    ensures bounds { (l : ℕ) → at ≤ l → l < at + 7 → slice_index out.new l ≤ most_sum }
    ensures rest { (l : ℕ) → (l < at) ⊎ (at + 7 ≤ l) → slice_index out.new l ≡ slice_index out.old l }
{
    let sums = sum_seven(rises, levels, at, first, last);
    put_seven(&sums, at, out);
}

/// The densities of a bin in all rows.
fn bin_rows(levels: &[[u8; 256]; 63], k: usize) -> [u16; 64]
    requires { k < 256 }
    ensures values { (l : ℕ) → l < 63 → slice_index result l ≡ bin_density (slice_index_or levels.now l []) k }
    ensures bounds { (l : ℕ) → slice_index result l ≤ most_sum }
{
    let mut out = [0u16; 64];
    for l in 0..63usize {
        out[l] = density_at(levels, l, k) as u16;
    }
    out
}

/// The densities of the bins from the first to the last in all rows.
fn fold_rows(rises: &[u16; 9633], levels: &[[u8; 256]; 63], first: usize, last: usize) -> [u16; 64]
    requires table { IsAddTable rises.now }
    requires order { first ≤ last }
    requires near { last < first + 24 }
    requires inside { last < 256 }
    ensures values { (l : ℕ) → l < 63
        → slice_index result l ≡ folded (bin_density (slice_index_or levels.now l [])) first (last - first) }
    ensures bounds { (l : ℕ) → slice_index result l ≤ most_sum }
{
    let mut out = [0u16; 64];
    for group in 0..9usize {
        fold_seven(rises, levels, 7 * group, first, last, &mut out);
    }
    out
}

/// No densities.
pub(crate) fn zeros() -> [u16; 64]
    ensures { (l : ℕ) → slice_index result l ≡ 0 }
{
    [0; 64]
}

/// The densities of a band in all rows, 0 where it has no bin of the span.
#[tactic(auto, using(crate::proofs::Banding::band_met, crate::proofs::Banding::band_after, crate::proofs::Banding::band_before))]
fn band_rows(rises: &[u16; 9633], levels: &[[u8; 256]; 63], start: u8, end: u8, b: u8) -> [u16; 64]
    requires table { IsAddTable rises.now }
    requires order { start < end }
    requires inside { end ≤ bins }
    requires band { b < bands }
    ensures values { (l : ℕ) → l < 63 → slice_index result l ≡ band_density start end (slice_index_or levels.now l []) b }
    ensures bounds { (l : ℕ) → slice_index result l ≤ most_sum }
{
    let begin = band_start(b);
    let after = band_start(b + 1);
    if begin < end && start < after {
        let first = start.max(begin);
        let last = end.min(after) - 1;
        if first == last {
            bin_rows(levels, first as usize)
        } else {
            fold_rows(rises, levels, first as usize, last as usize)
        }
    } else {
        zeros()
    }
}

/// The densities of all bands, by band and row.
pub(crate) fn densities(
    rises: &[u16; 9633],
    levels: &[[u8; 256]; 63],
    start: u8,
    end: u8,
) -> [[u16; 64]; 50]
    requires table { IsAddTable rises.now }
    requires order { start < end }
    requires inside { end ≤ bins }
    ensures values { (l b : ℕ) → l < 63 → b < bands
        → slice_index (slice_index_or result b []) l ≡ band_density start end (slice_index_or levels.now l []) b }
    ensures bounds { (l b : ℕ) → slice_index (slice_index_or result b []) l ≤ most_sum }
    ensures long { length result ≡ 50 }
{
    let mut out = [[0u16; 64]; 50];
    for b in 0..50u8 {
        out[b as usize] = band_rows(rises, levels, start, end, b);
    }
    out
}
