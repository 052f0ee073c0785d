//! The excitation of the bands of a coded channel (A/52 7.2.2.4).
ghost use Rattle.ac_alloc.specs.Integration.{most_density};
ghost use Rattle.ac_base.specs.Allocation.{bands};
ghost use Rattle.std.specs.Prelude.{◌≡◌, ◌<◌, ◌≤◌, ◌-◌, ℕ, ℤ, pos, ◌-ℤ◌, unsigned_abs, length, slice_index, slice_index_or, if◌then◌else◌};
ghost use Rattle.std.specs.Int.{int_max};
ghost use Rattle.ac_alloc.specs.Excitation.{excite, excite_coupling, excite_by, AreBands, most_leak};

use crate::leaks::leaks;
use crate::lowcomp::{find_begin, lowcomps};
use crate::params::Params;
use ac_base::{BANDS, Lead};

/// A leak's start as a signed level.
#[inline]
fn signed(x: u16) -> i32
    requires { x ≤ most_leak }
    ensures value { result ≡ pos x }
    ensures bound { unsigned_abs result ≤ most_leak }
{
    i32::from(x)
}

/// A density less a gain.
#[inline]
fn less_gain(bndpsd: u16, gain: u16) -> i32
    requires bndpsd { bndpsd ≤ most_density }
    requires least { 128 ≤ gain }
    requires most { gain ≤ 2000 }
    ensures value { result ≡ pos bndpsd -ℤ pos gain }
    ensures bound { unsigned_abs result ≤ most_leak }
{
    i32::from(bndpsd) - i32::from(gain)
}

/// The excitation of a band below the leaks.
#[inline]
fn below_leaks(bndpsd: u16, gain: u16, low: u16) -> i32
    requires bndpsd { bndpsd ≤ most_density }
    requires least { 128 ≤ gain }
    requires most { gain ≤ 2000 }
    requires low { low ≤ 384 }
    ensures value { result ≡ pos bndpsd -ℤ pos gain -ℤ pos low }
    ensures bound { unsigned_abs result ≤ most_leak }
{
    i32::from(bndpsd) - i32::from(gain) - i32::from(low)
}

/// The excitation of a band up to 21 from its leaks and its compensation.
#[inline]
fn with_lowcomp(fast: i32, slow: i32, low: u16) -> i32
    requires fast { unsigned_abs fast ≤ most_leak }
    requires slow { unsigned_abs slow ≤ most_leak }
    requires low { low ≤ 384 }
    ensures value { result ≡ int_max (fast -ℤ pos low) slow }
    ensures bound { unsigned_abs result ≤ most_leak }
{
    (fast - i32::from(low)).max(slow)
}

/// The excitation of a band from 22 on from its leaks.
#[inline]
fn greater_leak(fast: i32, slow: i32) -> i32
    requires fast { unsigned_abs fast ≤ most_leak }
    requires slow { unsigned_abs slow ≤ most_leak }
    ensures value { result ≡ int_max fast slow }
    ensures bound { unsigned_abs result ≤ most_leak }
{
    fast.max(slow)
}

/// The excitation of each band of a full channel or of LFE.
fn excite_channel(p: &Params, bndpsd: &[u16], lfe: bool, out: &mut [i32; BANDS])
    requires few { length bndpsd.now ≤ (if lfe then 7 else bands) }
    requires some { (if lfe then 7 else 31) ≤ length bndpsd.now }
    requires bounds { (b : ℕ) → slice_index bndpsd.now b ≤ most_density }
    ensures value { (b : ℕ) → b < length bndpsd.now
        → slice_index_or out.new b (pos 0) ≡ excite p.now lfe (λ j. slice_index bndpsd.now j) b }
    ensures bound { (b : ℕ) → b < length bndpsd.now → unsigned_abs (slice_index_or out.new b (pos 0)) ≤ most_leak }
{
    let mut low = [0u16; BANDS];
    lowcomps(bndpsd, lfe, &mut low);
    let begin = find_begin(bndpsd, lfe);
    let fast_gain = p.fast_gain();
    let fast_first = less_gain(bndpsd[begin - 1], fast_gain);
    let mut fast = [0i32; BANDS];
    leaks(
        fast_first,
        bndpsd,
        fast_gain,
        p.fast_decay(),
        begin,
        &mut fast,
    );
    let slow_gain = p.slow_gain();
    let slow_first = less_gain(bndpsd[begin - 1], slow_gain);
    let mut slow = [0i32; BANDS];
    leaks(
        slow_first,
        bndpsd,
        slow_gain,
        p.slow_decay(),
        begin,
        &mut slow,
    );
    for b in 0..bndpsd.len() {
        out[b] = if b < begin {
            below_leaks(bndpsd[b], fast_gain, low[b])
        } else if b <= 21 {
            with_lowcomp(fast[b], slow[b], low[b])
        } else {
            greater_leak(fast[b], slow[b])
        };
    }
}

/// The excitation of each band of the coupling channel, from `from` on.
fn excite_coupling_channel(p: &Params, bndpsd: &[u16], from: usize, out: &mut [i32; BANDS])
    requires few { length bndpsd.now ≤ bands }
    requires order { from ≤ length bndpsd.now }
    requires bounds { (b : ℕ) → slice_index bndpsd.now b ≤ most_density }
    ensures value { (b : ℕ) → from ≤ b → b < length bndpsd.now
        → slice_index_or out.new b (pos 0) ≡ excite_coupling p.now from (λ j. slice_index bndpsd.now j) b }
    ensures bound { (b : ℕ) → from ≤ b → b < length bndpsd.now → unsigned_abs (slice_index_or out.new b (pos 0)) ≤ most_leak }
{
    let mut fast = [0i32; BANDS];
    leaks(
        signed(p.fast_start()),
        bndpsd,
        p.fast_gain(),
        p.fast_decay(),
        from,
        &mut fast,
    );
    let mut slow = [0i32; BANDS];
    leaks(
        signed(p.slow_start()),
        bndpsd,
        p.slow_gain(),
        p.slow_decay(),
        from,
        &mut slow,
    );
    for b in from..bndpsd.len() {
        out[b] = greater_leak(fast[b], slow[b]);
    }
}

/// The excitation of each band of a coded channel, from `from` on. `bndpsd` has the densities of the channel's bands and
/// of those below, and no more.
pub(crate) fn excite_span(
    p: &Params,
    lead: Lead,
    bndpsd: &[u16],
    from: usize,
    out: &mut [i32; BANDS],
)
    requires bands { AreBands lead from (length bndpsd.now) }
    requires bounds { (b : ℕ) → slice_index bndpsd.now b ≤ most_density }
    ensures value { (b : ℕ) → from ≤ b → b < length bndpsd.now
        → slice_index_or out.new b (pos 0) ≡ excite_by lead p.now from (λ j. slice_index bndpsd.now j) b }
    ensures bound { (b : ℕ) → from ≤ b → b < length bndpsd.now → unsigned_abs (slice_index_or out.new b (pos 0)) ≤ most_leak }
{
    match lead {
        Lead::Free => excite_channel(p, bndpsd, false, out),
        Lead::Coupled => excite_channel(p, bndpsd, false, out),
        Lead::Coupling => excite_coupling_channel(p, bndpsd, from, out),
        Lead::Low => excite_channel(p, bndpsd, true, out),
    }
}
