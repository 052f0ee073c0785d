//! Certificates.
ghost use Rattle.std.specs.Prelude.{◌≡◌, length};

use crate::tree::Tree;
use ac_base::Shape;
use ac_bound::Pots;
use ac_expo::{Assign, RawExps};
use std::marker::Model;

/// That no assignment fits at one offset: potentials at this offset, and a tree from no run on.
#[derive(Drop)]
pub struct Level {
    pub pots: Pots,
    pub tree: Tree,
}

/// Levels, which contracts see as a list.
#[derive(Drop)]
pub struct Levels {
    levels: Vec<Level>,
}

impl Model for Levels {
    ghost use Rattle.std.specs.Prelude.{List};
    ghost use Rattle.std.specs.Coded.{codes};
    ghost use Rattle.ac_claim.specs.contracts.tree.Tree as tree;
    ghost use Rattle.ac_claim.specs.declared.certs.Level.{Level};

    ghost Value = { List Level };

    ghost coded = { Prim.hlevel (codes, tree.the_row.coded) };

    ghost view = { λ a. a.levels.items };
}

impl Levels {
    /// The same levels; no memory is taken.
    pub fn from_vec(levels: Vec<Level>) -> Levels
        ensures { result ≡ levels.items }
    {
        Levels { levels }
    }

    /// The same levels; no memory is taken.
    pub fn into_vec(self) -> Vec<Level>
        ensures { result.items ≡ self }
    {
        let Levels { levels } = self;
        levels
    }

    pub fn as_slice(&self) -> &[Level]
        ensures { result.now ≡ self.now }
    {
        self.levels.as_slice()
    }

    pub fn len(&self) -> usize
        ensures { result ≡ length self.now }
    {
        self.levels.len()
    }
}

/// That an assignment fits at an SNR offset, and that none fits above an upper one.
#[derive(Drop)]
pub struct Cert {
    pub shape: Shape,
    /// The raw exponents; `check` asks that those of the coded channels' bins are at most 24.
    pub raw: RawExps,
    /// At this offset the assignment fits.
    pub offset: u16,
    /// Above this offset none fits.
    pub upper: u16,
    pub assign: Assign,
    /// Above this offset the potentials `over` alone rule each assignment out.
    pub top: u16,
    /// Potentials at top + 1, where top is below 1023.
    pub over: Option<Pots>,
    /// The levels of the offsets from top down to upper + 1.
    pub trees: Levels,
}
