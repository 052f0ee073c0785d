//! Coupling: the coordinates by which the coupled channels come back from the coupling channel.
#![tactic(auto)]

ghost use Rattle.std.specs.Prelude.{◌≡◌, ◌≤◌};
ghost use Rattle.ac_coordinates.specs.Factor.{factor_of};

/// A coupling coordinate: the exponent and the mantissa of the factor of a channel in a band (A/52 5.4.3.16, 5.4.3.17).
#[derive(Clone, Copy, Debug, PartialEq, Eq)]
pub struct Coordinate {
    /// cplcoexp, 4 bits.
    pub exp: u8,
    /// cplcomant, 4 bits.
    pub mant: u8,
}

/// The coordinates of a frame: for each full channel, those of each band.
#[derive(Clone, Copy, Debug, PartialEq, Eq)]
pub struct Coordinates {
    /// By channel and band. Entries that stand for no channel or band say nothing.
    pub of: [[Coordinate; 18]; 5],
}

/// The factor of a coordinate with mstrcplco 0, in units of 2^-19 (A/52 7.4.3). Both fields have 4 bits.
pub fn factor(x: Coordinate) -> u32
    requires exp { x.exp ≤ 15 }
    requires mant { x.mant ≤ 15 }
    ensures value { result ≡ factor_of x.exp x.mant }
{
    if x.exp == 15 {
        u32::from(x.mant)
    } else {
        (u32::from(x.mant) + 16) << (14 - x.exp)
    }
}

#[cfg(test)]
mod tests {
    use super::*;

    /// A/52 7.4.3, by hand: (16 + mant) / 32 of 2^-exp, and mant / 16 of 2^-15, in units of 2^-19.
    #[test]
    fn factors_by_exponent_and_mantissa(rt: HostRuntime) {
        let table = [
            (0, 0, 262144),
            (0, 15, 507904),
            (1, 8, 196608),
            (13, 3, 38),
            (14, 0, 16),
            (14, 15, 31),
            (15, 0, 0),
            (15, 15, 15),
        ];
        for (exp, mant, units) in table {
            if exp <= 15 && mant <= 15 {
                assert_eq!(rt; factor(Coordinate { exp, mant }), units);
            }
        }
    }
}
