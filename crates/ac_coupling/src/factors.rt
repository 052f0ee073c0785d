//! The coordinate of a channel in a band (A/52 7.4.3).
ghost use Rattle.std.specs.Prelude.{◌≡◌, ◌<◌, ◌≤◌, ◌^◌, ℕ};
ghost use Rattle.ac_coordinates.specs.Factor.{factor_of};
ghost use Rattle.ac_coupling.specs.Coordinate.{factor_at, IsWithin, IsCoordinate, coordinate_of, SearchGivesCoordinate, CoordinateIsOne};

use ac_base::isqrt;
use ac_coordinates::Coordinate;

/// The greatest factor of a coordinate, in units of 2^-19.
const MOST: u64 = 31 << 14;

/// The greatest number that is within as a factor. The coupling channel's energy isn't 0.
fn limit(own: u128, shared: u128) -> u64
    requires own { own ≤ 2 ^ 64 }
    requires some { 0 < shared }
    ensures below { (v : ℕ) → v ≤ result → IsWithin own shared v }
    ensures above { (v : ℕ) → IsWithin own shared v → v ≤ result }
{
    isqrt(own * (1 << 32) / shared)
}

/// Of the coordinates with a leading one, that with the greatest factor up to a limit, which is less than 2^19.
fn normal(limit: u64) -> Coordinate
    requires least { 16 ≤ limit }
    requires most { limit < 2 ^ 19 }
    ensures exp { result.exp ≤ 15 }
    ensures mant { result.mant ≤ 15 }
    ensures within { factor_at result ≤ limit }
    ensures greatest { (exp mant : ℕ) → exp ≤ 15 → mant ≤ 15 → factor_of exp mant ≤ limit
        → factor_of exp mant ≤ factor_at result }
{
    let shift = limit.ilog2() - 4;
    Coordinate {
        exp: (14 - shift) as u8,
        mant: ((limit >> shift) - 16) as u8,
    }
}

/// The coordinate with the greatest factor up to a limit.
fn nearest(limit: u64) -> Coordinate
    ensures exp { result.exp ≤ 15 }
    ensures mant { result.mant ≤ 15 }
    ensures within { factor_at result ≤ limit }
    ensures greatest { (exp mant : ℕ) → exp ≤ 15 → mant ≤ 15 → factor_of exp mant ≤ limit
        → factor_of exp mant ≤ factor_at result }
{
    if limit < 16 {
        Coordinate {
            exp: 15,
            mant: limit as u8,
        }
    } else if limit < MOST {
        normal(limit)
    } else {
        Coordinate { exp: 0, mant: 15 }
    }
}

/// The coordinate of a channel in a band, by its own energy and the coupling channel's, each at most 2^64.
pub fn coordinate(own: u128, shared: u128) -> Coordinate
    requires own { own ≤ 2 ^ 64 }
    requires shared { shared ≤ 2 ^ 64 }
    ensures coordinate { IsCoordinate own shared result }
    ensures value { result ≡ coordinate_of own shared }
{
    if shared == 0 {
        Coordinate { exp: 0, mant: 15 }
    } else {
        nearest(limit(own, shared))
    }
}

/// Laws of coordinates: the search downwards gives the coordinate, and there is one.
pub fn coordinate_laws()
    ensures search { SearchGivesCoordinate }
    ensures one { CoordinateIsOne }
{}

#[cfg(test)]
mod tests;
