//! The sums of entries over whole bands, by their widths.
ghost use Rattle.std.specs.Prelude.{◌≡◌, ◌<◌, ◌≤◌, ◌+◌, ◌*◌, ◌-◌, ◌/◌, ◌^◌, min, max, ℕ, slice_index};
ghost use Rattle.ac_base.specs.Allocation.{bndtab_list};
ghost use Rattle.ac_sixths.specs.Runs.{column, entry_at, total_from, ArePieces};

use crate::group::group;
use ac_base::{band_of, band_start};

/// The band nearest to `b` from `from` to `to`.
#[inline]
pub(crate) fn near(b: usize, from: usize, to: usize) -> usize
    requires { from ≤ to }
    ensures { result ≡ max from (min b to) }
{
    b.min(to).max(from)
}

/// The first band with no bin below `start`.
pub(crate) fn first_whole(start: u8) -> usize
    requires { start ≤ 252 }
    ensures least { start ≤ slice_index bndtab_list result }
    ensures bound { result ≤ 50 }
{
    let b = band_of(start);
    if band_start(b) < start {
        b as usize + 1
    } else {
        b as usize
    }
}

/// The band behind the last with no bin from `end` on.
pub(crate) fn after_whole(end: u8) -> usize
    requires some { 0 < end }
    requires within { end ≤ 253 }
    ensures most { slice_index bndtab_list result ≤ end }
    ensures bound { result ≤ 50 }
{
    let b = band_of(end - 1);
    if band_start(b + 1) == end {
        b as usize + 1
    } else {
        b as usize
    }
}

/// Adds the sums of the entries of the bands from `from` up to but not `to`, from offset `t0` on. The levels are equal
/// in each piece of `P` bins in the bands of 6 bins, and of `Q` bins in the wider ones.
pub(crate) fn whole_bands<const P: usize, const Q: usize>(
    f: &[u16; 4128],
    levels: &[u8; 256],
    bases: &[[u16; 64]; 50],
    row: usize,
    from: usize,
    to: usize,
    t0: usize,
    six: &mut [u16; 16],
)
    requires some_p { 0 < P }
    requires piece_p { P ≤ 4 }
    requires whole_6 { 6 ≡ 6 / P * P }
    requires some_q { 0 < Q }
    requires piece_q { Q ≤ 4 }
    requires whole_12 { 12 ≡ 12 / Q * Q }
    requires whole_24 { 24 ≡ 24 / Q * Q }
    requires order { from ≤ to }
    requires to { to ≤ 50 }
    requires column { row < 64 }
    requires t0 { t0 ≤ 1008 }
    requires small { (i : ℕ) → i < 4128 → slice_index f.now i ≤ 96 }
    requires levels { (k : ℕ) → slice_index bndtab_list from ≤ k → k < slice_index bndtab_list to → slice_index levels.now k ≤ 192 }
    requires bases { (b : ℕ) → b < 50 → slice_index (column bases.now row) b ≤ 2232 }
    requires narrow { ArePieces P (max 35 from) (min 41 to) levels.now }
    requires wide { ArePieces Q (max 41 from) to levels.now }
    requires room { (j : ℕ) → j < 16 → slice_index six.old j + 96 * (slice_index bndtab_list to - slice_index bndtab_list from) < 2 ^ 16 }
    ensures { (j : ℕ) → j < 16
        → slice_index six.new j ≡ slice_index six.old j
        + total_from (entry_at f.now levels.now (column bases.now row) (t0 + j)) (slice_index bndtab_list from)
        (slice_index bndtab_list to - slice_index bndtab_list from) }
{
    let three = near(28, from, to);
    let six_bins = near(35, from, to);
    let twelve = near(41, from, to);
    let last = near(45, from, to);
    group::<1, 1>(f, levels, bases, row, from, three, t0, six);
    group::<3, 1>(f, levels, bases, row, three, six_bins, t0, six);
    group::<6, P>(f, levels, bases, row, six_bins, twelve, t0, six);
    group::<12, Q>(f, levels, bases, row, twelve, last, t0, six);
    group::<24, Q>(f, levels, bases, row, last, to, t0, six);
}
