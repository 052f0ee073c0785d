//! The greatest offset at which some uniform assignment fits.
ghost use Rattle.std.specs.Prelude.{◌≡◌, ◌≤◌, ℕ, List};
ghost use Rattle.ac_cost.specs.Parts.{FitsAt, cheapest_assign};
ghost use Rattle.ac_plan.specs.Helds.{IsHeld};
ghost use Rattle.ac_plan.specs.Plans.{IsUniformPlan};
ghost use Rattle.ac_plan.specs.Uniform.{IsUniformOf, NoneUniform};

use crate::answer::{Mark, Plan};
use crate::held::{reach, slice};
use crate::uniform::{find, uniform};
use crate::window::Held;
use ac_base::Shape;
use ac_expo::{Assign, word_at};
use ac_windows::RunRows;

/// The number of the word with D45 in block 0 and reuse after it.
const CHEAPEST: u16 = 2048;

/// The cheapest assignment.
pub fn cheapest(shape: &Shape) -> Assign
    ensures uniform { IsUniformOf shape.now result.w }
    ensures fits { (raw : List (List (List ℕ))) → FitsAt shape.now raw 0 (cheapest_assign shape.now) → FitsAt shape.now raw 0 result.w }
{
    uniform(shape, &word_at(CHEAPEST))
}

/// The greatest offset up to `top` at which some uniform assignment fits, and one that does, where the cheapest assignment fits
/// at offset 0. An offset that doesn't fit says nothing of the next.
fn floor(shape: &Shape, rows: &RunRows, held: &mut Held, top: u16) -> (u16, Assign)
    requires same { rows.now.shape ≡ shape.now }
    requires cheapest { FitsAt shape.now rows.now.raw 0 (cheapest_assign shape.now) }
    requires top { top ≤ 1023 }
    requires held { IsHeld shape.now rows.now.raw top held.old }
    ensures within { result.0 ≤ top }
    ensures uniform { IsUniformOf shape.now result.1.w }
    ensures fits { FitsAt shape.now rows.now.raw result.0 result.1.w }
    ensures above { NoneUniform shape.now rows.now.raw result.0 top }
{
    let mut t = top;
    while t > 0 {
        reach(shape, rows, t, held);
        if let Some(assign) = find(shape, &slice(shape, rows, held, t)) {
            return (t, assign);
        }
        t -= 1;
    }
    (0, cheapest(shape))
}

/// The plan where the search was cut short at an offset.
pub fn uniform_plan(shape: &Shape, rows: &RunRows, held: &mut Held, t: u16) -> Plan
    requires same { rows.now.shape ≡ shape.now }
    requires cheapest { FitsAt shape.now rows.now.raw 0 (cheapest_assign shape.now) }
    requires top { t ≤ 1023 }
    requires held { IsHeld shape.now rows.now.raw t held.old }
    ensures { IsUniformPlan shape.now rows.now.raw t result }
{
    let (offset, assign) = floor(shape, rows, held, t);
    let mark = if offset == t {
        Mark::Best
    } else {
        Mark::Bounded { upper: t }
    };
    Plan {
        offset,
        assign,
        mark,
    }
}
