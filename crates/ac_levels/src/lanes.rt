//! Vectors of sixteen places.
ghost use Rattle.std.specs.Prelude.{◌≡◌, ℕ, ◌+◌, ◌*◌, ◌<◌, ◌≤◌, ◌++◌, max, length, slice_index};

use std::simd::prelude::*;

/// Sixteen places.
#[inline]
fn load(old: &[u8; 288], at: usize) -> u8x16
    requires { at + 16 ≤ 288 }
    ensures places { (i : ℕ) → i < 16 → slice_index result i ≡ slice_index old.now (at + i) }
    ensures long { length result ≡ 16 }
{
    u8x16::from_slice(&old[at..])
}

/// Writes sixteen places.
#[inline]
fn store(lanes: &[u8; 16], new: &mut [u8; 288], at: usize)
    requires { at + 16 ≤ 288 }
    ensures inside { (i : ℕ) → i < 16 → slice_index new.new (at + i) ≡ slice_index lanes.now i }
    ensures before { (p : ℕ) → p < at → slice_index new.new p ≡ slice_index new.old p }
    ensures behind { (p : ℕ) → at + 16 ≤ p → slice_index new.new p ≡ slice_index new.old p }
{
    for i in 0..16 {
        new[at + i] = lanes[i];
    }
}

/// The greater of each two neighbours of 32 lanes.
#[inline]
fn greater(a: u8x16, b: u8x16) -> u8x16
    ensures { (i : ℕ) → i < 16 → slice_index result i ≡ max (slice_index (a ++ b) (2 * i)) (slice_index (a ++ b) (2 * i + 1)) }
{
    let (even, odd) = a.deinterleave(b);
    even.simd_max(odd)
}

/// The greater of each two neighbours of 32 places.
#[inline]
pub(crate) fn pair_lanes(old: &[u8; 288], from: usize, new: &mut [u8; 288], at: usize)
    requires from { from + 32 ≤ 288 }
    requires at { at + 16 ≤ 288 }
    ensures inside { (i : ℕ) → i < 16
        → slice_index new.new (at + i) ≡ max (slice_index old.now (from + 2 * i)) (slice_index old.now (from + 2 * i + 1)) }
    ensures before { (p : ℕ) → p < at → slice_index new.new p ≡ slice_index new.old p }
    ensures behind { (p : ℕ) → at + 16 ≤ p → slice_index new.new p ≡ slice_index new.old p }
{
    let front = load(old, from);
    let back = load(old, from + 16);
    let lanes = greater(front, back).to_array();
    store(&lanes, new, at);
}
