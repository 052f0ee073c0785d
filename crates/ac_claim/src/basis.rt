//! What the faults at an offset are found by.
ghost use Rattle.std.specs.Prelude.{◌≡◌, ◌<◌, ◌*◌};
ghost use Rattle.ac_base.specs.Fit.{rooms_of};
ghost use Rattle.ac_cost.specs.Sixths.{part_of};
ghost use Rattle.ac_claim.specs.Potentials.{number_of};

use ac_base::{Part, Parts, Shape, rooms};
use ac_bound::Pots;
use ac_cost::RunTable;

/// The runs at an offset, and potentials.
#[derive(Drop)]
pub struct Basis<'a> {
    pub shape: &'a Shape,
    pub table: &'a RunTable,
    pub offset: u16,
    pub pots: &'a Pots,
}

/// The number of a part.
pub fn number(part: Part) -> usize
    ensures value { result ≡ number_of part }
    ensures bound { result < 3 }
{
    match part {
        Part::Front => 0,
        Part::Total => 1,
        Part::Last => 2,
    }
}

/// The bits of a part.
pub fn bits_in(parts: &Parts, part: Part) -> u32
    ensures { result ≡ part_of parts.now (number_of part) }
{
    match part {
        Part::Front => parts.front,
        Part::Total => parts.total,
        Part::Last => parts.last,
    }
}

/// The room of a part, in sixths of a bit.
pub fn room(shape: &Shape, part: Part) -> u64
    ensures { result ≡ 6 * part_of (rooms_of shape.now.words) (number_of part) }
{
    6 * u64::from(bits_in(&rooms(shape.words), part))
}
