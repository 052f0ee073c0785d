//! The power spectral density of bins, and of bands by log-addition (A/52 7.2.2.2, 7.2.2.3).
ghost use Rattle.std.specs.Prelude.{◌≡◌, ◌<◌, ◌≤◌, ◌+◌, ◌*◌, ◌-◌, ℕ, slice_index};
ghost use Rattle.ac_alloc.specs.Integration.{logadd, psd, folded, bndpsd, AreExponents, most_density, most_psd};
ghost use Rattle.ac_base.specs.Allocation.{bins, bands};

use ac_base::{BANDS, band_start, latab};

/// The logarithm of a sum, from the logarithms of what is added.
#[inline]
#[tactic(auto, unfolding(crate::specs::Integration::logadd))]
fn log_add(a: u16, b: u16) -> u16
    requires left { a ≤ 60000 }
    requires right { b ≤ 60000 }
    ensures { result ≡ logadd a b }
{
    let apart = (a.abs_diff(b) / 2).min(255);
    a.max(b) + u16::from(latab(apart as u8))
}

/// The power spectral density of a bin by its exponent, at most 24: 3072 at 0, and 128 less for each step of 6 dB
/// (A/52 7.2.2.2).
#[inline]
pub fn psd(exp: u8) -> u16
    requires { exp ≤ 24 }
    ensures value { result ≡ 3072 - 128 * exp }
    ensures bound { result ≤ most_psd }
{
    3072 - 128 * u16::from(exp)
}

/// The density of the bins from the first to the last.
fn fold_bins(exps: &[u8; 256], first: usize, last: usize) -> u16
    requires order { first ≤ last }
    requires near { last < first + 24 }
    requires inside { last < 256 }
    requires small { AreExponents first (last + 1) exps.now }
    ensures value { result ≡ folded (λ k. psd exps.now k) first (last - first) }
    ensures bound { result ≤ most_density }
{
    let mut sum = psd(exps[first]);
    for k in first + 1..last + 1 {
        sum = log_add(sum, psd(exps[k]));
    }
    sum
}

/// The density of a band, 0 where it has no bin of the span.
fn band_psd(exps: &[u8; 256], start: u8, end: u8, b: u8) -> u16
    requires band { b < bands }
    requires inside { end ≤ bins }
    requires order { start < end }
    requires small { AreExponents start end exps.now }
    ensures value { result ≡ bndpsd start end exps.now b }
    ensures bound { result ≤ most_density }
{
    let begin = band_start(b);
    let after = band_start(b + 1);
    if begin < end && start < after {
        let first = start.max(begin);
        let last = end.min(after) - 1;
        fold_bins(exps, first as usize, last as usize)
    } else {
        0
    }
}

/// The density of each band, 0 where it has no bin of the span.
pub(crate) fn integrate(exps: &[u8; 256], start: u8, end: u8, out: &mut [u16; BANDS])
    requires order { start < end }
    requires inside { end ≤ bins }
    requires small { AreExponents start end exps.now }
    ensures value { (b : ℕ) → slice_index out.new b ≡ bndpsd start end exps.now b }
    ensures bound { (b : ℕ) → slice_index out.new b ≤ most_density }
{
    for b in 0..BANDS as u8 {
        out[b as usize] = band_psd(exps, start, end, b);
    }
}
