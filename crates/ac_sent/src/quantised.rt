//! What is handed in for a frame.
ghost use Rattle.std.specs.Prelude.{◌≡◌};

use ac_base::Shape;
use ac_coordinates::Coordinates;
use ac_expo::Assign;
use std::alloc::AllocError;

/// The values of a frame: everything that its fields and mantissas say, but for its padding and its CRC words.
///
/// The types of a channel's exponents and codes, by block and bin, are those named here in every call of these crates; they are
/// parameters so that the values can be put together in one place, for whichever types.
pub struct Quantised<R: Copy = [[u8; 256]; 6], C: Copy = [[u16; 256]; 6]> {
    /// The layout, the bandwidth, the coupling and the size.
    pub shape: Shape,
    /// The SNR offset, 16 csnroffst + fsnroffst, at most 1023 (A/52 7.2.2.1).
    pub t: u16,
    /// The exponent strategies of the coded channels (A/52 5.4.3.21 to 5.4.3.23).
    pub assign: Assign,
    /// The exponents, by coded channel, block and bin (A/52 7.1.3).
    pub exps: [R; 7],
    /// The codes of the mantissas, likewise (A/52 7.3).
    pub codes: [C; 7],
    /// Whether each rematrix band has sum and difference (A/52 5.4.3.20).
    pub remat: [bool; 4],
    /// The coupling coordinates (A/52 5.4.3.16, 5.4.3.17).
    pub coords: Coordinates,
}

impl<R: Copy, C: Copy> Clone for Quantised<R, C> {
    fn clone(&self) -> Result<Self, AllocError> {
        Ok(*self)
    }
}

impl<R: Copy, C: Copy> Copy for Quantised<R, C> {}

/// These values, in a function of its own since their arrays are of any type here.
fn made<R: Copy, C: Copy>(
    shape: Shape,
    t: u16,
    assign: Assign,
    exps: [R; 7],
    codes: [C; 7],
    remat: [bool; 4],
    coords: Coordinates,
) -> Quantised<R, C>
    ensures { result ≡ record { shape = shape; t = t; assign = assign; exps = exps; codes = codes; remat = remat; coords = coords } }
{
    Quantised {
        shape,
        t,
        assign,
        exps,
        codes,
        remat,
        coords,
    }
}

impl Quantised {
    /// The values of a frame.
    pub fn new(
        shape: Shape,
        t: u16,
        assign: Assign,
        exps: [[[u8; 256]; 6]; 7],
        codes: [[[u16; 256]; 6]; 7],
        remat: [bool; 4],
        coords: Coordinates,
    ) -> Quantised
        ensures value { result ≡ record {
          shape = shape;
          t = t;
          assign = assign;
          exps = exps;
          codes = codes;
          remat = remat;
          coords = coords;
        } }
    {
        made(shape, t, assign, exps, codes, remat, coords)
    }
}
