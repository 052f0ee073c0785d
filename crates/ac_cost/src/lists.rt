//! The exponents and masks of all runs of a frame.
ghost use Rattle.std.specs.Prelude.{◌≡◌, ◌≤◌};
ghost use Rattle.ac_cost.specs.Records.{exponents, at_offset};

use crate::listed::{Listed, list_channels};
use crate::priced::{NONE, price_channels};
use crate::table::RunTable;
use ac_alloc::Mask;
use ac_base::Shape;
use ac_expo::RawExps;
use ac_mant::Counts;
use std::marker::Model;

/// What doesn't depend on the offset, for one shape and raw exponents: the list of exponents and the mask of every run of every
/// coded channel. Contracts see the shape and the raw exponents.
#[derive(Drop)]
pub struct RunLists {
    shape: Shape,
    raw: RawExps,
    of: [[Listed; 63]; 7],
}

impl Model for RunLists {
    ghost use Rattle.ac_cost.specs.Records.{Exponents};

    ghost Value = { Exponents };

    ghost use Rattle.ac_cost.specs.Seen.{exponents_of, AreLists};

    ghost view = { exponents_of };

    ghost invariant = { AreLists };
}

/// A list and a mask of no run.
const BLANK: Listed = Listed {
    exps: [24; 256],
    mask: Mask {
        m: [0; 50],
        floor: 0,
    },
};

impl RunLists {
    /// The lists and masks of the runs of a shape's coded channels, by raw exponents.
    pub fn of(shape: &Shape, raw: &RawExps) -> RunLists
        ensures value { result ≡ exponents shape.now raw.now.e }
    {
        let mut of = [[BLANK; 63]; 7];
        list_channels(shape, raw, &mut of);
        RunLists {
            shape: *shape,
            raw: *raw,
            of,
        }
    }

    /// What the runs cost at an offset t, from 0 to 1023.
    pub fn at(&self, t: u16) -> RunTable
        requires { t ≤ 1023 }
        ensures value { result ≡ at_offset self.now.shape self.now.raw t }
    {
        let mut of = [[NONE; 63]; 7];
        price_channels(&self.shape, t, &self.of, &mut of);
        RunTable {
            shape: self.shape,
            raw: self.raw,
            t,
            of,
        }
    }
}
