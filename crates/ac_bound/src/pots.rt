//! Potentials: the least costs of all ways on from each boundary between blocks.
ghost use Rattle.std.specs.Prelude.{◌≡◌, ◌<◌, ◌≤◌, ℕ, [], slice_index, slice_index_or};
ghost use Rattle.ac_base.specs.Spans.{greatest_kind};
ghost use Rattle.ac_expo.specs.Raw.{channels};
ghost use Rattle.ac_bound.specs.Ways.{IsLeastFrom, ArePots, potential};
ghost use Rattle.ac_bound.specs.Steps.{kinds_of, after_of};

use crate::steps::least_at;
use ac_base::{Lead, Shape};
use ac_cost::RunTable;

/// The least sixths of a bit of all ways on to the end of the frame, by coded channel, part (0 the front, 1 the whole frame, 2
/// the mantissas of block 5) and boundary between blocks. At boundary 6 they are 0.
#[derive(Clone, Copy, Debug, PartialEq, Eq)]
pub struct Pots {
    pub p: [[[u32; 6]; 3]; 7],
}

static ZEROS: Pots = Pots {
    p: [[[0; 6]; 3]; 7],
};

/// The kinds of exponents that a channel takes (A/52 5.4.3.21 to 5.4.3.23).
fn kinds(lead: Lead) -> u8
    ensures { result ≡ greatest_kind lead }
{
    match lead {
        Lead::Free | Lead::Coupled | Lead::Coupling => 3,
        Lead::Low => 1,
    }
}

/// The least costs of coded channel c, by boundary and part.
fn least_costs(table: &RunTable, c: u8, kinds: u8) -> [[u32; 3]; 7]
    requires channel { c < channels table.now.shape }
    requires kinds { kinds ≡ kinds_of table.now.shape c }
    ensures { (part at : ℕ) → part < 3 → at ≤ 6 → IsLeastFrom table.now c part at (after_of result at part) }
{
    let mut rows = [[0; 3]; 7];
    for at in (0..6u8).rev() {
        rows[usize::from(at)] = least_at(table, c, kinds, at, &rows);
    }
    rows
}

/// A part of them.
fn column(rows: &[[u32; 3]; 7], part: usize) -> [u32; 6]
    requires { part < 3 }
    ensures { (at : ℕ) → at < 6 → slice_index result at ≡ after_of rows.now at part }
{
    [
        rows[0][part],
        rows[1][part],
        rows[2][part],
        rows[3][part],
        rows[4][part],
        rows[5][part],
    ]
}

/// The same by part and boundary.
fn by_part(rows: &[[u32; 3]; 7]) -> [[u32; 6]; 3]
    ensures { (part at : ℕ) → part < 3 → at < 6 → slice_index (slice_index_or result part []) at ≡ after_of rows.now at part }
{
    [column(rows, 0), column(rows, 1), column(rows, 2)]
}

impl Pots {
    /// The potentials at the offset of a table, which is of this shape; 0 for channels that aren't coded.
    pub fn of(shape: &Shape, table: &RunTable) -> Pots
        requires { table.now.shape ≡ shape.now }
        ensures value { ArePots table.now (potential result.p) }
        ensures rest { (c part at : ℕ) → channels shape.now ≤ c → c < 7 → part < 3 → potential result.p c part at ≡ 0 }
    {
        let zeros = &ZEROS;
        let mut pots = *zeros;
        for c in 0..shape.coded() {
            let kinds = kinds(shape.span(c).lead);
            pots.p[usize::from(c)] = by_part(&least_costs(table, c, kinds));
        }
        pots
    }
}
