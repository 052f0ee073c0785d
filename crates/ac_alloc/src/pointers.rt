//! The bit allocation pointers of the bins of a coded channel (A/52 7.2.2.7).
ghost use Rattle.std.specs.Prelude.{◌≡◌, ◌<◌, ◌≤◌, ◌+◌, ◌*◌, ◌-◌, ◌⊎◌, ℕ, ℤ, pos, ◌+ℤ◌, ◌-ℤ◌, slice_index, slice_index_or, bit_and, if◌then◌else◌};
ghost use Rattle.ac_alloc.specs.Pointers.{natural, snr_offset, level, kept, address, bap_of, bap_under, ArePointers, most_offset};
ghost use Rattle.ac_alloc.specs.Masking.{IsFloor, IsMaskOf};
ghost use Rattle.ac_alloc.specs.declared.params.Params.{Params};
ghost use Rattle.ac_base.specs.Shape.{IsSpan};
ghost use Rattle.ac_alloc.specs.Integration.{AreExponents, psd, most_psd};
ghost use Rattle.ac_base.specs.Allocation.{masktab_list, bands, bins};

use crate::integration::psd;
use crate::mask::Mask;
use ac_base::{BANDS, Span, band_of, baptab};

/// How far a mask stands above an offset and a floor.
#[inline]
fn gap(mask: i32, floor: i32, t: u16) -> i64
    requires { t ≤ most_offset }
    ensures { result ≡ mask -ℤ snr_offset t -ℤ floor }
{
    i64::from(mask) - (i64::from(4 * t) - 960) - i64::from(floor)
}

/// A number, and 0 for one below 0.
#[inline]
#[tactic(auto, using(crate::proofs::Rising::natural_max))]
fn natural_of(x: i64) -> u64
    ensures { result ≡ natural x }
{
    x.max(0) as u64
}

/// The same in steps of 32.
#[inline]
fn stepped(above: u64) -> u16
    ensures value { result ≡ bit_and above 0x1fe0 }
    ensures bound { result ≤ 0x1fe0 }
{
    (above & 0x1fe0) as u16
}

/// A level above a floor, within the levels that tell bins apart, raised by 2048.
#[inline]
fn raised(steps: u16, floor: i32) -> u16
    ensures { pos result ≡ kept (pos steps +ℤ floor) +ℤ pos 2048 }
{
    ((i64::from(steps) + i64::from(floor)).clamp(-2048, 3072) + 2048) as u16
}

/// What stands of a mask at an offset, likewise.
#[inline]
fn raised_level(mask: i32, floor: i32, t: u16) -> u16
    requires { t ≤ most_offset }
    ensures value { pos result ≡ kept (level mask floor t) +ℤ pos 2048 }
{
    raised(stepped(natural_of(gap(mask, floor, t))), floor)
}

/// What stands of the masks of all bands at an offset, likewise.
fn raised_levels(mask: &Mask, t: u16, out: &mut [u16; BANDS])
    requires { t ≤ most_offset }
    ensures value { (b : ℕ) → b < bands
        → pos (slice_index out.new b) ≡ kept (level (slice_index_or mask.now.m b (pos 0)) mask.now.floor t) +ℤ pos 2048 }
{
    let floor = mask.floor;
    for b in 0..BANDS {
        out[b] = raised_level(mask.m[b], floor, t);
    }
}

/// The place of a bin in the table of pointers, by what stands of its band's mask.
#[inline]
fn address_at(raised: u16, psd: u16) -> u8
    requires psd { psd ≤ most_psd }
    ensures value { (level : ℤ) → pos raised ≡ kept level +ℤ pos 2048 → result ≡ address level psd }
    ensures bound { result ≤ 63 }
{
    let left = (psd + 2048).saturating_sub(raised);
    (left / 32).min(63) as u8
}

/// The pointer of a bin.
#[inline]
fn bap_at(raised: u16, psd: u16) -> u8
    requires psd { psd ≤ most_psd }
    ensures value { (level : ℤ) → pos raised ≡ kept level +ℤ pos 2048 → result ≡ bap_of level psd }
    ensures bound { result ≤ 15 }
{
    baptab(address_at(raised, psd))
}

/// The place in the table of pointers, from 0 to 63, of a bin of power spectral density `psd` under the mask of its
/// band and the floor, at the offset t = 16 csnroffst + fsnroffst (A/52 7.2.2.7).
pub fn address(mask: i32, floor: i32, psd: u16, t: u16) -> u8
    requires psd { psd ≤ most_psd }
    requires t { t ≤ most_offset }
    ensures value { result ≡ address (level mask floor t) psd }
{
    address_at(raised_level(mask, floor, t), psd)
}

/// The level of a band at the offset t = 16 csnroffst + fsnroffst: what stands of its mask above the offset and the floor,
/// in steps of 32, on the floor (A/52 7.2.2.7). The floor is one of those by floorcod.
pub fn level(mask: i32, floor: i32, t: u16) -> i32
    requires floor { IsFloor floor }
    requires t { t ≤ most_offset }
    ensures value { result ≡ level mask floor t }
{
    i32::from(stepped(natural_of(gap(mask, floor, t)))) + floor
}

/// The bit allocation pointer of a bin of power spectral density `psd` in a band of this level (A/52 7.2.2.7, Table 7.16).
pub fn bap_of(level: i32, psd: u16) -> u8
    requires psd { psd ≤ most_psd }
    ensures value { result ≡ bap_of level psd }
    ensures bound { result ≤ 15 }
{
    bap_at(raised(0, level), psd)
}

/// Writes the bit allocation pointer (bap) of each bin of a span to `out`, at the offset t = 16 csnroffst + fsnroffst.
///
/// `silent` says that all SNR offset codes of the block are 0; then every bap is 0. After `Mask::of` for the same span and
/// exponents these are the pointers of the channel. What stands outside the span in `out` stays, and exponents outside it
/// aren't read.
pub fn baps(mask: &Mask, span: &Span, exps: &[u8; 256], t: u16, silent: bool, out: &mut [u8; 256])
    requires span { IsSpan span.now }
    requires exps { AreExponents span.now.start span.now.end exps.now }
    requires t { t ≤ most_offset }
    ensures bins { (k : ℕ) → span.now.start ≤ k → k < span.now.end
        → slice_index out.new k ≡ (if silent then 0 else bap_under mask.now exps.now k t) }
    ensures value { (p : Params) → IsMaskOf p span.now exps.now mask.now → ArePointers silent p span.now exps.now t out.new }
    ensures rest { (k : ℕ) → (k < span.now.start) ⊎ (span.now.end ≤ k) → slice_index out.new k ≡ slice_index out.old k }
{
    if silent {
        silence_bins(span.start as usize, span.end as usize, out);
    } else {
        let mut levels = [0u16; BANDS];
        raised_levels(mask, t, &mut levels);
        allocate_bins(&levels, span.start, span.end, exps, out);
    }
}

/// Pointers of 0 from `start` up to but not `end`.
fn silence_bins(start: usize, end: usize, out: &mut [u8; 256])
    requires end { end ≤ bins }
    requires order { start ≤ end }
    ensures bins { (k : ℕ) → start ≤ k → k < end → slice_index out.new k ≡ 0 }
    ensures rest { (k : ℕ) → (k < start) ⊎ (end ≤ k) → slice_index out.new k ≡ slice_index out.old k }
{
    for k in start..end {
        out[k] = 0;
    }
}

/// The pointers from `start` up to but not `end`.
fn allocate_bins(levels: &[u16; BANDS], start: u8, end: u8, exps: &[u8; 256], out: &mut [u8; 256])
    requires end { end ≤ bins }
    requires order { start ≤ end }
    requires exps { AreExponents start end exps.now }
    ensures bins { (k : ℕ) → start ≤ k → k < end → (level : ℤ)
        → pos (slice_index levels.now (slice_index masktab_list k)) ≡ kept level +ℤ pos 2048
        → slice_index out.new k ≡ bap_of level (psd exps.now k) }
    ensures rest { (k : ℕ) → (k < start) ⊎ (end ≤ k) → slice_index out.new k ≡ slice_index out.old k }
{
    for k in start..end {
        out[k as usize] = bap_at(levels[band_of(k) as usize], psd(exps[k as usize]));
    }
}
