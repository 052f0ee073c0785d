//! Whether a coupling is worth it, and the coupling of a frame (A/52 7.4).
ghost use Rattle.std.specs.Prelude.{◌≡◌, ◌+◌, ◌*◌, ◌<◌, ◌≤◌, ◌^◌, ℕ, [], slice_index_or, is_some, true, nat_le};
ghost use Rattle.ac_base.specs.Shape.{full_of};
ghost use Rattle.ac_base.specs.Sigma.{sum_below};
ghost use Rattle.ac_energy.specs.Coefficients.{entry};
ghost use Rattle.ac_energy.specs.Energy.{energy_of, AreSmallIn};
ghost use Rattle.ac_coupling.specs.Coupling.{AreCoordinates, AreSmallCoupled, is_worth, mean_of, start_of, end_by};

use crate::means::means;
use crate::range::Range;
use crate::sending::coordinates_of;
use ac_base::{Coefs, Shape};
use ac_coordinates::Coordinates;
use ac_energy::energy;

/// The energy of the full channels at the bins from `start` up to the one before `end`.
fn full_energy(coefs: &Coefs, full: u8, start: u8, end: u8) -> u64
    requires full { full ≤ 5 }
    requires small { (c : ℕ) → c < full → AreSmallIn (entry coefs.now.c c) start end }
    ensures value { result ≡ sum_below full (λ c. energy_of (entry coefs.now.c c) start end) }
    ensures bound { result ≤ full * 2 ^ 59 }
{
    let mut sum: u64 = 0;
    for c in 0..usize::from(full) {
        sum += energy(&coefs.c[c], start, end);
    }
    sum
}

/// Whether `shared` is a quarter at least of a channel's energy, which is a part of `own`.
fn keeps_quarter(own: u64, full: u8, shared: u64) -> bool
    requires full { full ≤ 5 }
    requires shared { shared ≤ 2 ^ 59 }
    ensures { result ≡ nat_le own (4 * full * shared) }
{
    own <= 4 * u64::from(full) * shared
}

/// Whether coupling is worth it, by the energies of the channels in the coupling's range: the coupling channel keeps a quarter of
/// theirs at least. The coefficients stand by channel in coding order.
pub fn couples(coefs: &Coefs, coupled: &Shape) -> bool
    requires coupling { is_some coupled.now.couple ≡ true }
    requires small { AreSmallCoupled coupled.now (entry coefs.now.c) }
    ensures { result ≡ is_worth coupled.now (entry coefs.now.c) }
{
    let full = coupled.full();
    let range = Range::of(coupled);
    let shared = means(coefs, full, range.start, range.end);
    let own = full_energy(coefs, full, range.start, range.end);
    keeps_quarter(own, full, energy(&shared, range.start, range.end))
}

/// Couples the channels of a frame, which stand in coding order: writes the coupling channel behind the full ones, moves LFE behind it,
/// and gives the coordinates.
pub fn couple(coefs: &mut Coefs, coupled: &Shape) -> Coordinates
    requires coupling { is_some coupled.now.couple ≡ true }
    requires small { AreSmallCoupled coupled.now (entry coefs.old.c) }
    ensures coordinates { AreCoordinates coupled.now (entry coefs.old.c) result }
    ensures full { (c : ℕ) → c < full_of coupled.now.acmod
        → slice_index_or coefs.new.c c [] ≡ slice_index_or coefs.old.c c [] }
    ensures mean { (b k : ℕ) → b < 6 → start_of coupled.now.couple ≤ k → k < end_by coupled.now.couple
        → entry coefs.new.c (full_of coupled.now.acmod) b k ≡ mean_of (full_of coupled.now.acmod) (entry coefs.old.c) b k }
    ensures low { slice_index_or coefs.new.c (full_of coupled.now.acmod + 1) []
        ≡ slice_index_or coefs.old.c (full_of coupled.now.acmod) [] }
{
    let full = coupled.full();
    let range = Range::of(coupled);
    let shared = means(coefs, full, range.start, range.end);
    let coordinates = coordinates_of(coefs, coupled, &shared);
    let at = usize::from(full);
    coefs.c[at + 1] = coefs.c[at];
    coefs.c[at] = shared;
    coordinates
}

#[cfg(test)]
mod tests;
