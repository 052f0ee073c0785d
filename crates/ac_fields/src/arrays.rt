//! Values that are there in some blocks only, one alone or by channel and by band.
ghost use Rattle.std.specs.Prelude.{◌≡◌, ◌&&◌, nat_lt, nat_le};
ghost use Rattle.ac_coordinates.specs.declared.Coordinate.{Coordinate};
ghost use Rattle.ac_rows.specs.Filled.{listed};
ghost use Rattle.ac_sent.specs.Fields.{when};
ghost use Rattle.std.specs.Prelude.{slice_index_or};

use ac_coordinates::Coordinate;
use ac_rows::both;

/// Whether a place is below an end.
#[inline]
pub fn below(i: usize, end: usize) -> bool
    ensures { result ≡ nat_lt i end }
{
    i < end
}

/// A flag that is there where the test holds.
#[inline]
pub fn flag(there: bool, value: bool) -> Option<bool>
    ensures { result ≡ when there value }
{
    if there { Some(value) } else { None }
}

/// A number that is there where the test holds.
#[inline]
pub fn number(there: bool, value: u8) -> Option<u8>
    ensures { result ≡ when there value }
{
    if there { Some(value) } else { None }
}

/// A flag for each full channel, where the test holds.
#[tactic(auto, unfolding(ac_rows::specs::Filled::listed))]
pub fn flags(there: bool, full: usize, value: bool) -> [Option<bool>; 5]
    ensures { result ≡ listed 5 0 (λ i. when (there && nat_lt i full) value) }
{
    [
        flag(both(there, below(0, full)), value),
        flag(both(there, below(1, full)), value),
        flag(both(there, below(2, full)), value),
        flag(both(there, below(3, full)), value),
        flag(both(there, below(4, full)), value),
    ]
}

/// A number for each full channel, where the test holds.
#[tactic(auto, unfolding(ac_rows::specs::Filled::listed))]
pub fn numbers(there: bool, full: usize, value: u8) -> [Option<u8>; 5]
    ensures { result ≡ listed 5 0 (λ i. when (there && nat_lt i full) value) }
{
    [
        number(both(there, below(0, full)), value),
        number(both(there, below(1, full)), value),
        number(both(there, below(2, full)), value),
        number(both(there, below(3, full)), value),
        number(both(there, below(4, full)), value),
    ]
}

/// A flag for each subband but the first, where the test holds.
pub fn later_flags(there: bool, subbands: usize, value: bool) -> [Option<bool>; 18]
    ensures { result ≡ listed 18 0 (λ k. when (there && nat_le 1 k && nat_lt k subbands) value) }
{
    let mut all = [None; 18];
    for k in 0..18 {
        all[k] = flag(both(there, both(below(0, k), below(k, subbands))), value);
    }
    all
}

/// The exponents of a channel's coordinates by band, where the test holds.
pub fn coordinate_exponents(
    there: bool,
    bands: usize,
    coordinates: &[Coordinate; 18],
) -> [Option<u8>; 18]
    ensures { result ≡ listed 18 0 (λ k. when (there && nat_lt k bands)
        (slice_index_or coordinates.now k (record { exp = 0; mant = 0 })).exp) }
{
    let mut all = [None; 18];
    for k in 0..18 {
        all[k] = number(both(there, below(k, bands)), coordinates[k].exp);
    }
    all
}

/// The mantissas of a channel's coordinates by band, where the test holds.
pub fn coordinate_mantissas(
    there: bool,
    bands: usize,
    coordinates: &[Coordinate; 18],
) -> [Option<u8>; 18]
    ensures { result ≡ listed 18 0 (λ k. when (there && nat_lt k bands)
        (slice_index_or coordinates.now k (record { exp = 0; mant = 0 })).mant) }
{
    let mut all = [None; 18];
    for k in 0..18 {
        all[k] = number(both(there, below(k, bands)), coordinates[k].mant);
    }
    all
}
