//! The sums of entries over whole bands of one width, in pieces of bins with one exponent.
ghost use Rattle.std.specs.Prelude.{◌≡◌, ◌<◌, ◌≤◌, ◌+◌, ◌*◌, ◌-◌, ◌/◌, ◌^◌, ℕ, slice_index};
ghost use Rattle.ac_base.specs.Allocation.{bndtab_list};
ghost use Rattle.ac_sixths.specs.Runs.{column, entry_at, piece_at, total_from, AreWide, ArePieces};

use crate::column::base_at;
use crate::window::add_all;
use ac_base::band_start;

/// Adds the entries of the pieces of a band: `N / M` of them from bin `a` on.
#[inline]
fn add_band<const N: usize, const M: usize>(
    x: &mut [u16; 16],
    f: &[u16; 4128],
    levels: &[u8; 256],
    base: usize,
    a: usize,
)
    requires piece { 0 < M }
    requires width { N ≤ 24 }
    requires bins { a + N ≤ 253 }
    requires base { base ≤ 3255 }
    requires small { (i : ℕ) → i < 4128 → slice_index f.now i ≤ 96 }
    requires levels { (k : ℕ) → a ≤ k → k < a + N → slice_index levels.now k ≤ 192 }
    requires room { (j : ℕ) → j < 16 → slice_index x.old j ≤ 24288 }
    ensures { (j : ℕ) → j < 16
        → slice_index x.new j ≡ slice_index x.old j + total_from (piece_at f.now levels.now (base + j) a M) 0 (N / M) }
{
    for i in 0..N / M {
        add_all(x, f, base + 4 * levels[a + i * M] as usize);
    }
}

/// Adds sums over the first bins of pieces of `M`, `M` times.
#[inline]
pub(crate) fn add_times<const M: usize>(six: &mut [u16; 16], x: &[u16; 16])
    requires piece { M ≤ 4 }
    requires some { 0 < M }
    requires room { (j : ℕ) → j < 16 → slice_index six.old j + M * slice_index x.now j < 2 ^ 16 }
    ensures { (j : ℕ) → j < 16 → slice_index six.new j ≡ slice_index six.old j + M * slice_index x.now j }
{
    for j in 0..16usize {
        six[j] += M as u16 * x[j];
    }
}

/// Adds the sums of the entries of the bands from `from` up to but not `to`, which have `N` bins each, from offset `t0`
/// on. The levels are equal in each piece of `M` bins.
pub(crate) fn group<const N: usize, const M: usize>(
    f: &[u16; 4128],
    levels: &[u8; 256],
    bases: &[[u16; 64]; 50],
    row: usize,
    from: usize,
    to: usize,
    t0: usize,
    six: &mut [u16; 16],
)
    requires some { 0 < M }
    requires piece { M ≤ 4 }
    requires width { N ≤ 24 }
    requires whole { N ≡ N / M * M }
    requires order { from ≤ to }
    requires to { to ≤ 50 }
    requires column { row < 64 }
    requires t0 { t0 ≤ 1008 }
    requires small { (i : ℕ) → i < 4128 → slice_index f.now i ≤ 96 }
    requires levels { (k : ℕ) → slice_index bndtab_list from ≤ k → k < slice_index bndtab_list to → slice_index levels.now k ≤ 192 }
    requires bases { (b : ℕ) → b < 50 → slice_index (column bases.now row) b ≤ 2232 }
    requires wide { AreWide N from to }
    requires pieces { ArePieces M from to levels.now }
    requires room { (j : ℕ) → j < 16 → slice_index six.old j + 96 * (slice_index bndtab_list to - slice_index bndtab_list from) < 2 ^ 16 }
    ensures { (j : ℕ) → j < 16
        → slice_index six.new j ≡ slice_index six.old j
        + total_from (entry_at f.now levels.now (column bases.now row) (t0 + j)) (slice_index bndtab_list from)
        (slice_index bndtab_list to - slice_index bndtab_list from) }
{
    let mut x = [0u16; 16];
    let mut a = band_start(from as u8) as usize;
    for b in from..to {
        add_band::<N, M>(&mut x, f, levels, base_at(bases, b, row) as usize + t0, a);
        a += N;
    }
    add_times::<M>(six, &x);
}
