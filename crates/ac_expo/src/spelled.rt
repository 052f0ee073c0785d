//! Exponents as they are sent: a first exponent and groups of three differences.
ghost use Rattle.std.specs.Prelude.{◌↔◌, IsTrue, ◌≡◌, ◌≤◌, ◌<◌, ◌+◌, ◌++◌, ◌∷◌, [], length, slice_index};

use std::marker::Model;

/// The first exponent (4 bits) and up to 84 groups of three differences (7 bits each), as `exps` and the groups
/// beside it, or `cplabsexp` and its groups (A/52 7.1.3).
#[derive(Clone, Copy, Debug, PartialEq, Eq)]
pub struct Spelled {
    first: u8,
    cells: [u8; 84],
    count: u8,
}

impl Model for Spelled {
    ghost use Rattle.ac_expo.specs.Spelling.{Spelling};

    ghost Value = { Spelling };

    ghost use Rattle.ac_expo.specs.Spelling.{spelling_of, fields_of, IsKept, fields_back};

    ghost view = { spelling_of };

    ghost invariant = { IsKept };

    ghost inverse = { fields_of };

    ghost inverse_ok = { fields_back };
}

impl Spelled {
    /// A first exponent without groups.
    pub fn new(first: u8) -> Spelled
        ensures { result ≡ record { first = first; groups = [] } }
    {
        Spelled {
            first,
            cells: [0; 84],
            count: 0,
        }
    }

    /// The first exponent: that of bin 0, or half the reference of the coupling channel.
    pub fn first(&self) -> u8
        ensures { result ≡ self.now.first }
    {
        self.first
    }

    /// The number of groups.
    pub fn len(&self) -> u8
        ensures value { result ≡ length self.now.groups }
        ensures bound { result ≤ 84 }
    {
        self.count
    }

    /// Whether there is no group.
    pub fn is_empty(&self) -> bool
        ensures { IsTrue result ↔ (self.now.groups ≡ []) }
    {
        self.count == 0
    }

    /// The group at a place.
    pub fn group_at(&self, place: u8) -> u8
        requires { place < length self.now.groups }
        ensures { result ≡ slice_index self.now.groups place }
    {
        self.cells[usize::from(place)]
    }

    /// The groups, in their order.
    pub fn groups(&self) -> &[u8]
        ensures { result.now ≡ self.now.groups }
    {
        &self.cells[..usize::from(self.count)]
    }

    /// Puts a group at the end.
    pub fn push(&mut self, group: u8)
        requires { length self.old.groups < 84 }
        ensures { self.new ≡ record self.old { groups = self.old.groups ++ group ∷ [] } }
    {
        self.cells[self.count as usize] = group;
        self.count += 1;
    }
}
