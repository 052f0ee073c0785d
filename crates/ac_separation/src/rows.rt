//! The bins of a channel anew: by scales of the coupling channel, or as sum and difference of two channels.
ghost use Rattle.std.specs.Prelude.{◌≡◌, ◌≢◌, ◌<◌, ◌≤◌, ◌^◌, ◌+◌, ◌-◌, ◌*◌, ◌/◌, ◌⊎◌, ◌+ℤ◌, neg_ℤ, ℕ, [], slice_index_or, unsigned_abs};
ghost use Rattle.ac_energy.specs.Coefficients.{cell_of, entry};
ghost use Rattle.ac_separation.specs.Separation.{clamped};
ghost use Rattle.ac_separation.specs.Written.{at, scaled_by, separated_at, IsShared, IsWritten, AreSums};

use crate::bands::subband_bands;
use crate::scale::{Scale, by_scale, clamped, scale_in};
use ac_base::{Coefs, Span};
use ac_rows::Block;

/// The coupling channel of a block.
#[derive(Drop)]
pub struct Shared {
    /// Its values by bin.
    pub row: [i32; 256],
    /// Its bins.
    pub span: Span,
    /// The band of each of its subbands.
    pub bands: [u8; 18],
}

/// The coupling channel of block `b`, which is coded channel `c`.
pub fn shared_of(values: &Coefs, block: &Block, span: Span, c: usize, b: usize) -> Shared
    requires channel { c < 7 }
    requires block { b < 6 }
    requires start { 37 ≤ span.start }
    requires end { span.end ≤ 253 }
    requires whole { 12 * ((span.end - span.start) / 12) ≡ span.end - span.start }
    requires small { (k : ℕ) → k < 256 → unsigned_abs (entry values.now.c c b k) ≤ 2 ^ 24 }
    ensures value { IsShared block.now result }
    ensures span { result.span ≡ span }
    ensures row { (k : ℕ) → at result.row k ≡ entry values.now.c c b k }
{
    Shared {
        row: values.c[c][b],
        span,
        bands: subband_bands(block),
    }
}

/// Gives the 12 bins of a subband the coupling channel's values by a scale.
fn scale_subband(row: &mut [i32; 256], shared: &[i32; 256], start: usize, scale: Scale)
    requires end { start + 12 ≤ 256 }
    requires small { (k : ℕ) → k < 256 → unsigned_abs (at shared.now k) ≤ 2 ^ 24 }
    requires factor { scale.factor < 2 ^ 19 }
    requires shift { scale.shift ≤ 25 }
    ensures { IsWritten start (start + 12) (λ k. scaled_by scale (at shared.now k)) (at row.old) (at row.new) }
{
    for k in start..start + 12 {
        row[k] = by_scale(shared[k], scale);
    }
}

/// Gives coupled channel `c` its values at the bins of the coupling channel.
fn separate_row(row: &mut [i32; 256], shared: &Shared, block: &Block, c: usize)
    requires channel { c < 5 }
    requires shared { IsShared block.now shared.now }
    ensures { IsWritten shared.now.span.start shared.now.span.end (separated_at block.now c shared.now.span.start (at shared.now.row))
        (at row.old) (at row.new) }
{
    let start = usize::from(shared.span.start);
    let subbands = usize::from(shared.span.end).saturating_sub(start) / 12;
    for n in 0..subbands {
        let scale = scale_in(block, c, usize::from(shared.bands[n]));
        scale_subband(row, &shared.row, start + 12 * n, scale);
    }
}

/// The same in row `b` of a channel.
fn separate_block(rows: &mut [[i32; 256]; 6], shared: &Shared, block: &Block, c: usize, b: usize)
    requires channel { c < 5 }
    requires block { b < 6 }
    requires shared { IsShared block.now shared.now }
    ensures own { IsWritten shared.now.span.start shared.now.span.end (separated_at block.now c shared.now.span.start (at shared.now.row))
        (cell_of rows.old b) (cell_of rows.new b) }
    ensures others { (j : ℕ) → j ≢ b → slice_index_or rows.new j [] ≡ slice_index_or rows.old j [] }
{
    separate_row(&mut rows[b], shared, block, c);
}

/// The same in block `b` of all coefficients.
pub fn separate(values: &mut Coefs, shared: &Shared, block: &Block, c: usize, b: usize)
    requires channel { c < 5 }
    requires block { b < 6 }
    requires shared { IsShared block.now shared.now }
    ensures own { IsWritten shared.now.span.start shared.now.span.end (separated_at block.now c shared.now.span.start (at shared.now.row))
        (entry values.old.c c b) (entry values.new.c c b) }
    ensures others { (d j k : ℕ) → (d ≢ c) ⊎ (j ≢ b) → entry values.new.c d j k ≡ entry values.old.c d j k }
{
    separate_block(&mut values.c[c], shared, block, c, b);
}

/// The sum of two coefficients.
#[inline]
fn sum(l: i32, r: i32) -> i32
    ensures { result ≡ clamped (l +ℤ r) }
{
    clamped(i64::from(l) + i64::from(r))
}

/// Their difference.
#[inline]
fn difference(l: i32, r: i32) -> i32
    ensures { result ≡ clamped (l +ℤ neg_ℤ r) }
{
    clamped(i64::from(l) - i64::from(r))
}

/// Two rows as their sum and difference at the bins from `start` up to the one before `end`.
fn sum_rows(left: &mut [i32; 256], right: &mut [i32; 256], start: usize, end: usize)
    requires { end ≤ 256 }
    ensures left { IsWritten start end (λ k. clamped (at left.old k +ℤ at right.old k)) (at left.old) (at left.new) }
    ensures right { IsWritten start end (λ k. clamped (at left.old k +ℤ neg_ℤ (at right.old k))) (at right.old) (at right.new) }
{
    for k in start..end {
        let l = left[k];
        let r = right[k];
        left[k] = sum(l, r);
        right[k] = difference(l, r);
    }
}

/// The same of row `b` of two channels.
fn sum_blocks(
    left: &mut [[i32; 256]; 6],
    right: &mut [[i32; 256]; 6],
    b: usize,
    start: usize,
    end: usize,
)
    requires block { b < 6 }
    requires end { end ≤ 256 }
    ensures left { IsWritten start end (λ k. clamped (cell_of left.old b k +ℤ cell_of right.old b k))
        (cell_of left.old b) (cell_of left.new b) }
    ensures right { IsWritten start end (λ k. clamped (cell_of left.old b k +ℤ neg_ℤ (cell_of right.old b k)))
        (cell_of right.old b) (cell_of right.new b) }
    ensures left_others { (j : ℕ) → j ≢ b → slice_index_or left.new j [] ≡ slice_index_or left.old j [] }
    ensures right_others { (j : ℕ) → j ≢ b → slice_index_or right.new j [] ≡ slice_index_or right.old j [] }
{
    sum_rows(&mut left[b], &mut right[b], start, end);
}

/// The first two channels of block `b` as their sum and difference at these bins.
pub fn sums(values: &mut Coefs, b: usize, start: usize, end: usize)
    requires block { b < 6 }
    requires end { end ≤ 256 }
    ensures { AreSums start end b (entry values.old.c) (entry values.new.c) }
{
    let (left, right) = values.c.split_at_mut(1);
    sum_blocks(&mut left[0], &mut right[0], b, start, end);
}
