//! A coupling coordinate as a scale, and a value by it (A/52 7.4.3).
ghost use Rattle.std.specs.Prelude.{◌≡◌, ◌<◌, ◌≤◌, ◌^◌, ◌+◌, ◌*◌, ◌*ℤ◌, pos, min, unsigned_abs};
ghost use Rattle.ac_base.specs.Floor.{floor_div};
ghost use Rattle.ac_rows.specs.Filled.{number};
ghost use Rattle.ac_separation.specs.Separation.{clamped, turned, factor_in, master_in, is_turned};
ghost use Rattle.ac_separation.specs.Written.{scaled_by};

use ac_coordinates::{Coordinate, factor};
use ac_rows::{Block, holds, number};

/// The greatest coefficient in magnitude.
const MOST: i64 = 1 << 24;

/// What a channel has of the coupling channel in a band.
#[derive(Clone, Copy, Debug, PartialEq, Eq)]
pub struct Scale {
    /// The factor, below 2^19.
    pub factor: u32,
    /// The power of two by which it is divided, at most 25.
    pub shift: u32,
    /// Whether the sign is the other one.
    pub turned: bool,
}

/// A field as a number, at most the greatest of its width.
#[inline]
fn field(value: Option<u8>, most: u8) -> u8
    ensures { result ≡ min (number value) most }
{
    number(value).min(most)
}

/// The factor of channel `c` in a band.
fn factor_in(block: &Block, c: usize, band: usize) -> u32
    requires channel { c < 5 }
    requires band { band < 18 }
    ensures value { result ≡ factor_in block.now c band }
    ensures bound { result < 2 ^ 19 }
{
    factor(Coordinate {
        exp: field(block.cplcoexp[c][band], 15),
        mant: field(block.cplcomant[c][band], 15),
    })
}

/// The scale of channel `c` in a band.
pub fn scale_in(block: &Block, c: usize, band: usize) -> Scale
    requires channel { c < 5 }
    requires band { band < 18 }
    ensures factor { result.factor ≡ factor_in block.now c band }
    ensures shift { result.shift ≡ 16 + 3 * master_in block.now c }
    ensures turned { result.turned ≡ is_turned block.now c band }
    ensures bound { (result.factor < 2 ^ 19) }
    ensures most { (result.shift ≤ 25) }
{
    Scale {
        factor: factor_in(block, c, band),
        shift: 16 + 3 * u32::from(field(block.mstrcplco[c], 3)),
        turned: c == 1 && holds(block.phsflg[band]),
    }
}

/// The product at full width.
#[inline]
fn product(x: i32, factor: u32) -> i64
    requires value { unsigned_abs x ≤ 2 ^ 24 }
    requires factor { factor < 2 ^ 19 }
    ensures value { result ≡ x *ℤ pos factor }
    ensures bound { unsigned_abs result ≤ 2 ^ 43 }
{
    i64::from(x) * i64::from(factor)
}

/// The other sign, where the test holds.
#[inline]
fn turned(there: bool, z: i64) -> i64
    requires { unsigned_abs z ≤ 2 ^ 43 }
    ensures { result ≡ turned there z }
{
    if there { -z } else { z }
}

/// The nearest number within the bounds of a coefficient.
#[inline]
pub fn clamped(z: i64) -> i32
    ensures value { result ≡ clamped z }
    ensures bound { unsigned_abs result ≤ 2 ^ 24 }
{
    z.clamp(-MOST, MOST) as i32
}

/// A product by a power of two, rounded downwards.
#[inline]
fn shifted(z: i64, shift: u32) -> i64
    requires value { unsigned_abs z ≤ 2 ^ 43 }
    requires shift { shift ≤ 25 }
    ensures value { result ≡ floor_div z (2 ^ shift) }
    ensures bound { unsigned_abs result ≤ 2 ^ 43 }
{
    z >> shift
}

/// A value of the coupling channel by a scale.
#[inline]
pub fn by_scale(x: i32, scale: Scale) -> i32
    requires value { unsigned_abs x ≤ 2 ^ 24 }
    requires factor { scale.factor < 2 ^ 19 }
    requires shift { scale.shift ≤ 25 }
    ensures { result ≡ scaled_by scale x }
{
    clamped(turned(scale.turned, shifted(product(x, scale.factor), scale.shift)))
}
