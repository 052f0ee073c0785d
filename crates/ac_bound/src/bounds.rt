//! Lower bounds of partial assignments.
ghost use Rattle.std.specs.Prelude.{◌≡◌, ◌<◌, ◌≤◌, ◌+◌, ◌*◌, ◌^◌, ◌↔◌, ℕ, IsTrue, slice_index};
ghost use Rattle.ac_base.specs.Fit.{side_of};
ghost use Rattle.ac_cost.specs.Sixths.{part_of};
ghost use Rattle.ac_bound.specs.Ways.{potential};
ghost use Rattle.ac_bound.specs.Bounds.{IsPartial, rest_of, lower_of, IsOver};

use crate::pots::Pots;
use ac_base::{Shape, rooms, side_bits};

/// What of an assignment is decided: the words of the coded channels below `done` and channel `done` up to a boundary between
/// blocks. In each part the decided runs cost `spent` sixths of a bit.
#[derive(Clone, Copy, Debug, PartialEq, Eq)]
pub struct Partial {
    pub done: u8,
    pub at: u8,
    pub spent: [u64; 3],
}

/// The sum of each two.
fn sums(a: &[u64; 3], b: &[u64; 3]) -> [u64; 3]
    requires few { (part : ℕ) → part < 3 → slice_index a.now part ≤ 2 ^ 42 }
    requires more { (part : ℕ) → part < 3 → slice_index b.now part ≤ 2 ^ 42 }
    ensures { (part : ℕ) → part < 3 → slice_index result part ≡ slice_index a.now part + slice_index b.now part }
{
    [a[0] + b[0], a[1] + b[1], a[2] + b[2]]
}

/// The potentials of a coded channel at a boundary, in each part.
fn potentials(pots: &Pots, c: u8, at: u8) -> [u64; 3]
    requires channel { c < 7 }
    requires boundary { at ≤ 6 }
    ensures value { (part : ℕ) → part < 3 → slice_index result part ≡ potential pots.now.p c part at }
    ensures bound { (part : ℕ) → part < 3 → slice_index result part < 2 ^ 32 }
{
    if at == 6 {
        return [0; 3];
    }
    let channel = &pots.p[usize::from(c)];
    let at = usize::from(at);
    [
        u64::from(channel[0][at]),
        u64::from(channel[1][at]),
        u64::from(channel[2][at]),
    ]
}

/// What is still to come in each part.
fn rest(shape: &Shape, pots: &Pots, done: u8, at: u8) -> [u64; 3]
    requires boundary { at ≤ 6 }
    ensures value { (part : ℕ) → part < 3 → slice_index result part ≡ rest_of shape.now (potential pots.now.p) done at part }
    ensures bound { (part : ℕ) → part < 3 → slice_index result part ≤ 7 * 2 ^ 32 }
{
    let coded = shape.coded();
    if done >= coded {
        return [0; 3];
    }
    let mut rest = potentials(pots, done, at);
    for c in done + 1..coded {
        rest = sums(&rest, &potentials(pots, c, 0));
    }
    rest
}

/// Six times the side bits of each part.
fn sides(shape: &Shape) -> [u64; 3]
    ensures value { (part : ℕ) → part < 3
        → slice_index result part ≡ 6 * part_of (side_of shape.now.acmod shape.now.lfe shape.now.couple) part }
    ensures bound { (part : ℕ) → part < 3 → slice_index result part ≤ 6 * 2 ^ 32 }
{
    let side = side_bits(shape);
    [
        6 * u64::from(side.front),
        6 * u64::from(side.total),
        6 * u64::from(side.last),
    ]
}

/// The lower bound of a partial assignment of a shape in each part, in sixths of a bit: six times the side bits, what is decided,
/// the potential of the channel in hand where it stands, and those of the later channels from their start.
pub fn lower(shape: &Shape, pots: &Pots, partial: &Partial) -> [u64; 3]
    requires { IsPartial shape.now partial.now }
    ensures value { (part : ℕ) → part < 3 → slice_index result part ≡ lower_of shape.now (potential pots.now.p) partial.now part }
{
    let decided = sums(&sides(shape), &partial.spent);
    sums(&decided, &rest(shape, pots, partial.done, partial.at))
}

/// Whether some part's bound is over six times the part's room.
pub fn is_over(shape: &Shape, bounds: &[u64; 3]) -> bool
    ensures value { IsTrue result ↔ IsOver shape.now (slice_index bounds.now) }
{
    let rooms = rooms(shape.words);
    bounds[0] > 6 * u64::from(rooms.front)
        || bounds[1] > 6 * u64::from(rooms.total)
        || bounds[2] > 6 * u64::from(rooms.last)
}
