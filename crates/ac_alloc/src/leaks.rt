//! The leaks, by which a band masks those above it (A/52 7.2.2.4).
ghost use Rattle.ac_alloc.specs.Integration.{most_density};
ghost use Rattle.ac_base.specs.Allocation.{bands};
ghost use Rattle.std.specs.Prelude.{◌≡◌, ◌<◌, ◌≤◌, ◌-◌, ℕ, ℤ, pos, ◌-ℤ◌, unsigned_abs, length, slice_index, slice_index_or};
ghost use Rattle.std.specs.Int.{int_max};
ghost use Rattle.ac_alloc.specs.Excitation.{leak_from, most_leak};

use ac_base::BANDS;

/// A leak one band further: it falls by the decay, or is lifted to the density of the band less the gain.
#[inline]
fn next_leak(leak: i32, decay: u16, bndpsd: u16, gain: u16) -> i32
    requires leak { unsigned_abs leak ≤ most_leak }
    requires decay { decay ≤ 2000 }
    requires bndpsd { bndpsd ≤ most_density }
    requires least { 128 ≤ gain }
    requires most { gain ≤ 2000 }
    ensures value { result ≡ int_max (leak -ℤ pos decay) (pos bndpsd -ℤ pos gain) }
    ensures bound { unsigned_abs result ≤ most_leak }
{
    (leak - i32::from(decay)).max(i32::from(bndpsd) - i32::from(gain))
}

/// The leak at each band of a channel from `from` on, where it is `start` before the first.
pub(crate) fn leaks(
    start: i32,
    bndpsd: &[u16],
    gain: u16,
    decay: u16,
    from: usize,
    out: &mut [i32; BANDS],
)
    requires few { length bndpsd.now ≤ bands }
    requires order { from ≤ length bndpsd.now }
    requires start { unsigned_abs start ≤ most_leak }
    requires decay { decay ≤ 2000 }
    requires bndpsd { (b : ℕ) → from ≤ b → b < length bndpsd.now → slice_index bndpsd.now b ≤ most_density }
    requires least { 128 ≤ gain }
    requires most { gain ≤ 2000 }
    ensures value { (b : ℕ) → from ≤ b → b < length bndpsd.now
        → slice_index_or out.new b (pos 0) ≡ leak_from start (λ j. slice_index bndpsd.now j) gain decay from b }
    ensures bound { (b : ℕ) → from ≤ b → b < length bndpsd.now → unsigned_abs (slice_index_or out.new b (pos 0)) ≤ most_leak }
{
    let mut leak = start;
    for b in from..bndpsd.len() {
        leak = next_leak(leak, decay, bndpsd[b], gain);
        out[b] = leak;
    }
}
