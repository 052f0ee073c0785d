//! The coordinates of the full channels, band by band.
ghost use Rattle.std.specs.Prelude.{◌≡◌, ◌+◌, ◌*◌, ◌<◌, ◌≤◌, ℕ, length, slice_index, slice_index_or};
ghost use Rattle.ac_base.specs.Shape.{full_of};
ghost use Rattle.ac_energy.specs.Coefficients.{entry, cell_of};
ghost use Rattle.ac_energy.specs.Energy.{energy_of, AreSmallIn};
ghost use Rattle.ac_coupling.specs.Coordinate.{coordinate_of};
ghost use Rattle.ac_coupling.specs.Coupling.{AreCoordinates, AreSmallCoupled, mean_of, start_of, end_by};

use crate::factors::coordinate;
use crate::range::Range;
use ac_base::{Coefs, Shape};
use ac_coordinates::{Coordinate, Coordinates};
use ac_energy::energy;

/// What stands where no coordinate is sent.
const NONE: Coordinate = Coordinate { exp: 0, mant: 0 };

/// The energies of a channel by band, and 0 behind the bands.
fn band_energies(rows: &[[i32; 256]; 6], range: Range) -> [u64; 18]
    requires { AreSmallIn (cell_of rows.now) range.start range.end }
    ensures { (band : ℕ) → band < range.bands
        → slice_index result band ≡ energy_of (cell_of rows.now) (range.start + 12 * band) (range.start + 12 * band + 12) }
{
    let mut energies = [0; 18];
    for band in 0..range.bands {
        let start = range.start + 12 * band;
        energies[usize::from(band)] = energy(rows, start, start + 12);
    }
    energies
}

/// The coordinates of a channel by its energies and the coupling channel's, and none behind the bands.
fn channel_coordinates(own: &[u64; 18], shared: &[u64; 18], bands: u8) -> [Coordinate; 18]
    requires { bands ≤ 18 }
    ensures long { length result ≡ 18 }
    ensures sent { (band : ℕ) → band < bands
        → slice_index_or result band (record { exp = 0; mant = 0 })
        ≡ coordinate_of (slice_index own.now band) (slice_index shared.now band) }
    ensures none { (band : ℕ) → bands ≤ band → band < 18
        → slice_index_or result band (record { exp = 0; mant = 0 }) ≡ record { exp = 0; mant = 0 } }
{
    let mut coordinates = [NONE; 18];
    for band in 0..usize::from(bands) {
        coordinates[band] = coordinate(u128::from(own[band]), u128::from(shared[band]));
    }
    coordinates
}

/// The coordinates of a frame, by the full channels and the coupling channel.
pub fn coordinates_of(coefs: &Coefs, coupled: &Shape, shared: &[[i32; 256]; 6]) -> Coordinates
    requires small { AreSmallCoupled coupled.now (entry coefs.now.c) }
    requires mean { (b k : ℕ) → b < 6 → start_of coupled.now.couple ≤ k → k < end_by coupled.now.couple
        → cell_of shared.now b k ≡ mean_of (full_of coupled.now.acmod) (entry coefs.now.c) b k }
    requires small_mean { AreSmallIn (cell_of shared.now) (start_of coupled.now.couple) (end_by coupled.now.couple) }
    ensures { AreCoordinates coupled.now (entry coefs.now.c) result }
{
    let range = Range::of(coupled);
    let shared = band_energies(shared, range);
    let mut of = [[NONE; 18]; 5];
    for c in 0..usize::from(coupled.full()) {
        let own = band_energies(&coefs.c[c], range);
        of[c] = channel_coordinates(&own, &shared, range.bands);
    }
    Coordinates { of }
}
