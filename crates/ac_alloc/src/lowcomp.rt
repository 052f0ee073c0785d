//! Low-frequency compensation, and the band at which the leaks begin (A/52 7.2.2.4).
ghost use Rattle.ac_alloc.specs.Integration.{most_density};
ghost use Rattle.std.specs.Prelude.{◌≡◌, ◌<◌, ◌≤◌, ◌+◌, ◌-◌, ℕ, length, slice_index, if◌then◌else◌};
ghost use Rattle.ac_alloc.specs.Excitation.{lowcomp, low, lowcomp_to, begin};

use ac_base::BANDS;

/// The compensation of a band by that of the band before, its density and the next band's.
#[inline]
#[tactic(auto, unfolding(crate::specs::Excitation::lowcomp))]
fn compensate(low: u16, here: u16, next: u16, band: usize) -> u16
    requires low { low ≤ 384 }
    requires here { here ≤ most_density }
    ensures value { result ≡ lowcomp low here next band }
    ensures bound { result ≤ 384 }
{
    if band < 20 {
        if here + 256 == next {
            if band < 7 { 384 } else { 320 }
        } else if next < here {
            low.saturating_sub(64)
        } else {
            low
        }
    } else {
        low.saturating_sub(128)
    }
}

/// The compensation of bands 0 to 21, of LFE 0 to 6; LFE's band 6 keeps that of band 5. `bndpsd` has the channel's bands
/// alone: of LFE, seven.
pub(crate) fn lowcomps(bndpsd: &[u16], lfe: bool, out: &mut [u16; BANDS])
    requires all { (if lfe then 7 else 23) ≤ length bndpsd.now }
    requires bounds { (b : ℕ) → b < (if lfe then 7 else 23) → slice_index bndpsd.now b ≤ most_density }
    ensures value { (b : ℕ) → b < (if lfe then 7 else 22) → slice_index out.new b ≡ low lfe (λ j. slice_index bndpsd.now j) b }
    ensures bound { (b : ℕ) → b < (if lfe then 7 else 22) → slice_index out.new b ≤ 384 }
{
    if lfe {
        let last = lowcomp_run(bndpsd, 6, out);
        out[6] = last;
    } else {
        let _last = lowcomp_run(bndpsd, 22, out);
    }
}

/// The compensation of the first bands; gives that of the last.
fn lowcomp_run(bndpsd: &[u16], bands: usize, out: &mut [u16; BANDS]) -> u16
    requires few { bands < 50 }
    requires all { bands < length bndpsd.now }
    requires bounds { (b : ℕ) → b ≤ bands → slice_index bndpsd.now b ≤ most_density }
    ensures values { (b : ℕ) → b < bands → slice_index out.new b ≡ lowcomp_to (λ j. slice_index bndpsd.now j) (b + 1) }
    ensures bounds { (b : ℕ) → b < bands → slice_index out.new b ≤ 384 }
    ensures last { result ≡ lowcomp_to (λ j. slice_index bndpsd.now j) bands }
    ensures bound { result ≤ 384 }
{
    let mut low: u16 = 0;
    for b in 0..bands {
        low = compensate(low, bndpsd[b], bndpsd[b + 1], b);
        out[b] = low;
    }
    low
}

/// The band at which the leaks begin: the one behind the first of bands 2 to 6, of LFE 2 to 5, that is at most the next.
/// LFE's band 6 is its last, so that it has none to be compared with.
pub(crate) fn find_begin(bndpsd: &[u16], lfe: bool) -> usize
    requires all { (if lfe then 7 else 8) ≤ length bndpsd.now }
    ensures value { result ≡ begin lfe (λ j. slice_index bndpsd.now j) }
    ensures least { 3 ≤ result }
    ensures most { result ≤ 7 }
{
    let end = if lfe { 6 } else { 7 };
    for b in 2..end {
        if bndpsd[b] <= bndpsd[b + 1] {
            return b + 1;
        }
    }
    7
}
