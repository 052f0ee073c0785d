//! The root offset.
ghost use Rattle.std.specs.Prelude.{◌≡◌, ◌≤◌, ◌↔◌, ℕ, IsTrue};
ghost use Rattle.ac_cost.specs.Parts.{FitsAt, IsFeasible, cheapest_assign};
ghost use Rattle.ac_bound.specs.Roots.{IsClosed, IsRoot};

use crate::bounds::{Partial, is_over, lower};
use crate::pots::Pots;
use ac_base::Shape;
use ac_cost::{RunLists, RunTable};
use ac_expo::RawExps;

/// Nothing is decided.
const NOTHING: Partial = Partial {
    done: 0,
    at: 0,
    spent: [0; 3],
};

/// Whether the lower bound alone rules out each assignment at the offset of a table.
fn is_closed(shape: &Shape, table: &RunTable) -> bool
    requires { table.now.shape ≡ shape.now }
    ensures value { IsTrue result ↔ IsClosed shape.now table.now.raw table.now.t }
{
    let pots = Pots::of(shape, table);
    is_over(shape, &lower(shape, &pots, &NOTHING))
}

/// R, the greatest offset from 0 to 1023 that the lower bound doesn't rule out, by the lists of runs of a shape of which the
/// cheapest assignment fits at offset 0. No offset above it is feasible.
pub fn root(shape: &Shape, lists: &RunLists) -> u16
    requires same { lists.now.shape ≡ shape.now }
    requires cheapest { FitsAt shape.now lists.now.raw 0 (cheapest_assign shape.now) }
    ensures value { IsRoot shape.now lists.now.raw result }
    ensures feasible { (t : ℕ) → t ≤ 1023 → IsFeasible shape.now lists.now.raw t → t ≤ result }
{
    let mut low = 0;
    let mut high = 1024;
    while high - low > 1 {
        let middle = low + (high - low) / 2;
        if is_closed(shape, &lists.at(middle)) {
            high = middle;
        } else {
            low = middle;
        }
    }
    low
}

/// The same by raw exponents.
pub fn root_offset(shape: &Shape, raw: &RawExps) -> u16
    requires { FitsAt shape.now raw.now.e 0 (cheapest_assign shape.now) }
    ensures value { IsRoot shape.now raw.now.e result }
    ensures feasible { (t : ℕ) → t ≤ 1023 → IsFeasible shape.now raw.now.e t → t ≤ result }
{
    root(shape, &RunLists::of(shape, raw))
}
