//! Rematrixing: two channels as half their sum and half their difference where that is cheaper (A/52 7.5).
#![tactic(auto)]

ghost use Rattle.std.specs.Prelude.{◌≡◌, ◌<◌, ◌≤◌, ℕ, [], slice_index_or};
ghost use Rattle.ac_energy.specs.Coefficients.{entry};
ghost use Rattle.ac_rematrix.specs.Rematrix.{AreSmallPair, flags_of, rematrixed_of};

mod bands;
mod energies;
mod halves;

use crate::bands::{band_start, rematrix_bins};
use ac_base::{Coefs, Shape, rematrix_bands};

/// Rematrixes the two channels of a frame in each band where it is worth it, and gives the flags of the bands. A band is cut where the
/// channels end, or the coupling begins.
pub fn rematrix(coefs: &mut Coefs, shape: &Shape) -> [bool; 4]
    requires stereo { shape.now.acmod ≡ 2 }
    requires small { AreSmallPair shape.now (entry coefs.old.c) }
    ensures flags { result ≡ flags_of shape.now (entry coefs.old.c) }
    ensures pair { (c b k : ℕ) → c < 2 → b < 6 → k < 256
        → entry coefs.new.c c b k ≡ rematrixed_of shape.now (flags_of shape.now (entry coefs.old.c)) (entry coefs.old.c) c b k }
    ensures others { (c : ℕ) → 2 ≤ c → slice_index_or coefs.new.c c [] ≡ slice_index_or coefs.old.c c [] }
{
    let cut = usize::from(shape.span(0).end);
    let mut flags = [false; 4];
    for band in 0..rematrix_bands(shape.couple) {
        let end = band_start(band + 1).min(cut);
        flags[usize::from(band)] = rematrix_bins(&mut coefs.c, band_start(band), end);
    }
    flags
}

#[cfg(test)]
mod tests;
