//! The sums of entries over whole bands, two bins at a time.
ghost use Rattle.std.specs.Prelude.{◌≡◌, ◌<◌, ◌≤◌, ◌+◌, ◌*◌, ◌-◌, ◌/◌, ◌^◌, ℕ, slice_index};
ghost use Rattle.ac_base.specs.Allocation.{bndtab_list};
ghost use Rattle.ac_sixths.specs.Runs.{column, piece_at, total_from, AreWide};
ghost use Rattle.ac_sixths.specs.Pairs.{pair_of, pair_total};

use crate::column::base_at;
use crate::group::add_times;
use ac_base::band_start;

#[inline]
fn pair_code(level: u8, next: u8) -> u16
    requires near { level ≤ next + 16 }
    requires level { level ≤ 192 }
    requires next { next ≤ level + 16 }
    ensures value { result ≡ pair_of level next }
    ensures bound { result ≤ 4320 }
{
    u16::from(level) + 129 * (u16::from(next) + 16 - u16::from(level))
}

/// Writes the code of each bin's level and the next one's, from `start` up to but not `end`.
pub fn pair_codes(levels: &[u8; 256], start: usize, end: usize, out: &mut [u16; 256])
    requires order { start ≤ end }
    requires end { end ≤ 252 }
    requires small { (k : ℕ) → start ≤ k → k < end → slice_index levels.now k ≤ 192 }
    requires up { (k : ℕ) → start ≤ k → k < end → slice_index levels.now (k + 1) ≤ slice_index levels.now k + 16 }
    requires down { (k : ℕ) → start ≤ k → k < end → slice_index levels.now k ≤ slice_index levels.now (k + 1) + 16 }
    ensures values { (k : ℕ) → start ≤ k → k < end
        → slice_index out.new k ≡ pair_of (slice_index levels.now k) (slice_index levels.now (k + 1)) }
    ensures bound { (k : ℕ) → start ≤ k → k < end → slice_index out.new k ≤ 4320 }
{
    for k in start..end {
        out[k] = pair_code(levels[k], levels[k + 1]);
    }
}

/// Adds sixteen neighbouring entries of the table of pairs.
#[inline]
fn add_two(x: &mut [u16; 16], f: &[u16; 20640], i: usize)
    requires within { i ≤ 20624 }
    requires room { (j : ℕ) → j < 16 → slice_index x.old j + slice_index f.now (i + j) < 2 ^ 16 }
    ensures { (j : ℕ) → j < 16 → slice_index x.new j ≡ slice_index x.old j + slice_index f.now (i + j) }
{
    for j in 0..16usize {
        x[j] += f[i + j];
    }
}

/// Adds the entries of the pairs of a band.
#[inline]
fn add_pairs<const N: usize>(
    x: &mut [u16; 16],
    f: &[u16; 20640],
    pairs: &[u16; 256],
    base: usize,
    a: usize,
)
    requires width { N ≤ 24 }
    requires bins { a + N ≤ 253 }
    requires base { base ≤ 3240 }
    requires small { (i : ℕ) → i < 20640 → slice_index f.now i ≤ 192 }
    requires pairs { (k : ℕ) → a ≤ k → k + 1 < a + N → slice_index pairs.now k ≤ 4320 }
    requires room { (j : ℕ) → j < 16 → slice_index x.old j ≤ 24288 }
    ensures { (j : ℕ) → j < 16
        → slice_index x.new j ≡ slice_index x.old j + total_from (piece_at f.now pairs.now (base + j) a 2) 0 (N / 2) }
{
    for i in 0..N / 2 {
        add_two(x, f, base + 4 * pairs[a + i * 2] as usize);
    }
}

/// Adds the sums of the entries of the bands from `from` up to but not `to`, which have `N` bins each, from offset `t0`
/// on, two bins at a time.
pub(crate) fn pair_group<const N: usize>(
    f: &[u16; 20640],
    pairs: &[u16; 256],
    bases: &[[u16; 64]; 50],
    row: usize,
    from: usize,
    to: usize,
    t0: usize,
    six: &mut [u16; 16],
)
    requires width { N ≤ 24 }
    requires whole { N ≡ N / 2 * 2 }
    requires order { from ≤ to }
    requires to { to ≤ 50 }
    requires column { row < 64 }
    requires t0 { t0 ≤ 1008 }
    requires small { (i : ℕ) → i < 20640 → slice_index f.now i ≤ 192 }
    requires pairs { (k : ℕ) → slice_index bndtab_list from ≤ k → k + 1 < slice_index bndtab_list to → slice_index pairs.now k ≤ 4320 }
    requires bases { (b : ℕ) → b < 50 → slice_index (column bases.now row) b ≤ 2232 }
    requires wide { AreWide N from to }
    requires room { (j : ℕ) → j < 16 → slice_index six.old j + 96 * (slice_index bndtab_list to - slice_index bndtab_list from) < 2 ^ 16 }
    ensures { (j : ℕ) → j < 16
        → slice_index six.new j ≡ slice_index six.old j
        + pair_total f.now pairs.now (column bases.now row) (t0 + j) (slice_index bndtab_list from)
        ((slice_index bndtab_list to - slice_index bndtab_list from) / 2) }
{
    let mut x = [0u16; 16];
    let mut a = band_start(from as u8) as usize;
    for b in from..to {
        add_pairs::<N>(&mut x, f, pairs, base_at(bases, b, row) as usize + t0, a);
        a += N;
    }
    add_times::<1>(six, &x);
}
