//! Joint coding: coupling and rematrixing.
#![tactic(auto)]

ghost use Rattle.std.specs.Prelude.{◌≡◌, ◌<◌, ◌≤◌, ℕ, [], length, slice_index_or};
ghost use Rattle.ac_base.specs.Spans.{IsIn};
ghost use Rattle.ac_expo.specs.Raw.{AreSmall, channel_span, channels};
ghost use Rattle.ac_energy.specs.Coefficients.{entry};
ghost use Rattle.ac_coupling.specs.Coupling.{AreCoordinates};
ghost use Rattle.ac_rematrix.specs.Rematrix.{AreSmallPair, flags_of, rematrixed_of};
ghost use Rattle.ac_joint.specs.Joint.{AreSmallAll, IsShared, joint_flags, joint_of};

use ac_base::{Coefs, Shape};
pub use ac_coordinates::{Coordinate, Coordinates};
pub use ac_coupling::{coordinate, couple, couples};
pub use ac_rematrix::rematrix;

/// The flags of the rematrixing bands and the coupling coordinates of a frame.
#[derive(Clone, Copy, Debug, PartialEq, Eq)]
pub struct Joint {
    /// rematflg by band (A/52 5.4.3.20).
    pub remat: [bool; 4],
    /// Those of the coupled channels by band (A/52 5.4.3.16, 5.4.3.17).
    pub coords: Coordinates,
}

/// The coordinates of no coupling.
fn no_coordinates() -> Coordinates
    ensures long { length result.of ≡ 5 }
    ensures rows { (c : ℕ) → c < 5 → length (slice_index_or result.of c []) ≡ 18 }
    ensures value { (c band : ℕ) → c < 5 → band < 18
        → slice_index_or (slice_index_or result.of c []) band (record { exp = 0; mant = 0 }) ≡ record { exp = 0; mant = 0 } }
{
    Coordinates {
        of: [[Coordinate { exp: 0, mant: 0 }; 18]; 5],
    }
}

/// Couples the channels where the shape says so.
fn couple_where(coefs: &mut Coefs, shape: &Shape) -> Coordinates
    requires small { AreSmallAll shape.now (entry coefs.old.c) }
    ensures coordinates { AreCoordinates shape.now (entry coefs.old.c) result }
    ensures shared { IsShared shape.now coefs.old.c coefs.new.c }
{
    if shape.couple.is_some() {
        couple(coefs, shape)
    } else {
        no_coordinates()
    }
}

/// Rematrixes two channels.
fn rematrix_where(coefs: &mut Coefs, shape: &Shape) -> [bool; 4]
    requires small { shape.now.acmod ≡ 2 → AreSmallPair shape.now (entry coefs.old.c) }
    ensures flags { result ≡ flags_of shape.now (entry coefs.old.c) }
    ensures pair { (c b k : ℕ) → c < 2 → b < 6 → k < 256
        → entry coefs.new.c c b k ≡ rematrixed_of shape.now (flags_of shape.now (entry coefs.old.c)) (entry coefs.old.c) c b k }
    ensures others { (c : ℕ) → 2 ≤ c → slice_index_or coefs.new.c c [] ≡ slice_index_or coefs.old.c c [] }
{
    if shape.acmod == 2 {
        rematrix(coefs, shape)
    } else {
        [false; 4]
    }
}

/// Codes the channels of a frame jointly, as its shape says. The coefficients stand by channel in coding order, LFE last, and then by
/// coded channel.
pub fn join(coefs: &mut Coefs, shape: &Shape) -> Joint
    requires small { AreSmallAll shape.now (entry coefs.old.c) }
    ensures flags { result.remat ≡ joint_flags shape.now (entry coefs.old.c) }
    ensures coordinates { AreCoordinates shape.now (entry coefs.old.c) result.coords }
    ensures joint { (c b k : ℕ) → c < channels shape.now → b < 6 → IsIn (channel_span shape.now c) k
        → entry coefs.new.c c b k ≡ joint_of shape.now (entry coefs.old.c) c b k }
    ensures small { AreSmall shape.now coefs.new.c }
{
    let coords = couple_where(coefs, shape);
    let remat = rematrix_where(coefs, shape);
    Joint { remat, coords }
}

#[cfg(test)]
mod tests;
