//! How a run is held: the levels of its exponents and the bases of its masks.
ghost use Rattle.std.specs.Prelude.{◌≡◌, ◌≢◌, ◌<◌, ◌≤◌, ◌+◌, ◌*◌, ◌-◌, ℕ, pos, slice_index, slice_index_or, []};
ghost use Rattle.ac_alloc.specs.Integration.{AreExponents};
ghost use Rattle.ac_alloc.specs.Masking.{IsMask, IsLevel};
ghost use Rattle.ac_sixths.specs.Runs.{level_of, base_of};

use ac_alloc::Mask;

#[inline]
fn level(exponent: u8) -> u8
    requires { exponent ≤ 24 }
    ensures { result ≡ level_of exponent }
{
    8 * (24 - exponent)
}

/// Writes the level of each exponent from `start` up to but not `end`.
pub fn levels(exps: &[u8; 256], start: usize, end: usize, out: &mut [u8; 256])
    requires order { start ≤ end }
    requires end { end ≤ 253 }
    requires exps { AreExponents start end exps.now }
    ensures { (k : ℕ) → start ≤ k → k < end → slice_index out.new k ≡ level_of (slice_index exps.now k) }
{
    for k in start..end {
        out[k] = level(exps[k]);
    }
}

#[inline]
fn base(mask: i32) -> u16
    requires { IsLevel mask }
    ensures { result ≡ base_of mask }
{
    2232 - (mask.max(0) as u16 + 3008) / 4
}

#[inline]
fn put(entries: &mut [u16; 64], i: usize, x: u16)
    requires { i < 64 }
    ensures here { slice_index entries.new i ≡ x }
    ensures rest { (j : ℕ) → j ≢ i → slice_index entries.new j ≡ slice_index entries.old j }
{
    entries[i] = x;
}

/// Writes the base of each mask to a column.
pub fn bases(mask: &Mask, row: usize, out: &mut [[u16; 64]; 50])
    requires mask { IsMask mask.now }
    requires column { row < 64 }
    ensures column { (b : ℕ) → b < 50 → slice_index (slice_index_or out.new b []) row ≡ base_of (slice_index_or mask.now.m b (pos 0)) }
    ensures rest { (i : ℕ) → i ≢ row → (b : ℕ) → b < 50
        → slice_index (slice_index_or out.new b []) i ≡ slice_index (slice_index_or out.old b []) i }
{
    for b in 0..50usize {
        put(&mut out[b], row, base(mask.m[b]));
    }
}
