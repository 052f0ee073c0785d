//! The masking curve of a coded channel (A/52 7.2.2.5).
ghost use Rattle.ac_alloc.specs.Excitation.{most_leak};
ghost use Rattle.std.specs.Prelude.{◌≡◌, ◌⊎◌, ◌<◌, ◌≤◌, ◌+◌, ◌-◌, ℕ, ℤ, pos, ◌≤ℤ◌, unsigned_abs, slice_index, slice_index_or};
ghost use Rattle.ac_alloc.specs.Masking.{masked, IsLevel, IsMask, mask, first_band, last_band, most_level};
ghost use Rattle.ac_alloc.specs.Codes.{knee, floor_of};
ghost use Rattle.ac_base.specs.Shape.{IsSpan};
ghost use Rattle.ac_alloc.specs.Integration.{AreExponents};
ghost use Rattle.ac_base.specs.Allocation.{hth_list, bands};

use crate::excitation::excite_span;
use crate::integration::integrate;
use crate::params::Params;
use ac_base::{BANDS, Span, band_of, hearing};

/// The masks of the bands of a coded channel, and the floor under them, in 128ths of 6 dB.
#[derive(Clone, Copy, Debug, PartialEq, Eq)]
pub struct Mask {
    /// By band; 0 at bands outside the channel.
    pub m: [i32; BANDS],
    /// The floor, by floorcod.
    pub floor: i32,
}

impl Mask {
    /// The masks of the bands of a span, by the exponents of its bins; others aren't read.
    pub fn of(p: &Params, span: &Span, exps: &[u8; 256]) -> Mask
        requires span { IsSpan span.now }
        requires exps { AreExponents span.now.start span.now.end exps.now }
        ensures masks { (b : ℕ) → first_band span.now ≤ b → b ≤ last_band span.now
            → slice_index_or result.m b (pos 0) ≡ mask p.now span.now exps.now b }
        ensures rest { (b : ℕ) → (b < first_band span.now) ⊎ (last_band span.now < b) → slice_index_or result.m b (pos 0) ≡ pos 0 }
        ensures floor { result.floor ≡ floor_of p.now }
        ensures bound { IsMask result }
    {
        let mut bndpsd = [0u16; BANDS];
        integrate(exps, span.start, span.end, &mut bndpsd);
        let from = band_of(span.start) as usize;
        let to = band_of(span.end - 1) as usize + 1;
        let mut excite = [0i32; BANDS];
        excite_span(p, span.lead, &bndpsd[..to], from, &mut excite);
        let mut m = [0i32; BANDS];
        masks(p, &bndpsd, &excite, from, to, &mut m);
        Mask {
            m,
            floor: p.floor(),
        }
    }
}

/// The mask of a band from its excitation.
#[inline]
fn band_mask(excite: i32, knee: u16, bndpsd: u16, threshold: u16) -> i32
    requires excite { unsigned_abs excite ≤ most_leak }
    requires knee { knee ≤ 2816 }
    requires threshold { threshold ≤ 2112 }
    ensures value { result ≡ masked excite knee bndpsd threshold }
    ensures least { pos 0 ≤ℤ result }
    ensures bound { unsigned_abs result ≤ most_level }
{
    let grown = if bndpsd < knee {
        excite + i32::from((knee - bndpsd) / 4)
    } else {
        excite
    };
    grown.max(i32::from(threshold))
}

/// The masks of the bands from `from` up to but not `to`.
fn masks(
    p: &Params,
    bndpsd: &[u16; BANDS],
    excite: &[i32; BANDS],
    from: usize,
    to: usize,
    out: &mut [i32; BANDS],
)
    requires few { to ≤ bands }
    requires order { from ≤ to }
    requires excite { (b : ℕ) → from ≤ b → b < to → unsigned_abs (slice_index_or excite.now b (pos 0)) ≤ most_leak }
    requires levels { (b : ℕ) → IsLevel (slice_index_or out.old b (pos 0)) }
    ensures value { (b : ℕ) → from ≤ b → b < to → slice_index_or out.new b (pos 0)
        ≡ masked (slice_index_or excite.now b (pos 0)) (knee p.now) (slice_index bndpsd.now b) (slice_index (hth_list p.now.fscod) b) }
    ensures rest { (b : ℕ) → (b < from) ⊎ (to ≤ b) → slice_index_or out.new b (pos 0) ≡ slice_index_or out.old b (pos 0) }
    ensures levels { (b : ℕ) → IsLevel (slice_index_or out.new b (pos 0)) }
{
    let knee = p.knee();
    for b in from..to {
        out[b] = band_mask(excite[b], knee, bndpsd[b], hearing(p.fscod, b as u8));
    }
}
