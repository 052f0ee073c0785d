//! The search for the greatest offset at which some assignment fits, within a budget.
ghost use Rattle.std.specs.Prelude.{◌≡◌, ◌≤◌, IfSome, IsNone};
ghost use Rattle.ac_expo.specs.Raw.{channels};
ghost use Rattle.ac_cost.specs.Parts.{FitsAt, IsFeasible, cheapest_assign};
ghost use Rattle.ac_cost.specs.Runs.{IsAssignmentOf};
ghost use Rattle.ac_bound.specs.Roots.{IsRoot};
ghost use Rattle.ac_plan.specs.declared.answer.Mark.TheVariants.{Best};
ghost use Rattle.ac_plan.specs.Helds.{IsHeld};
ghost use Rattle.ac_plan.specs.Plans.{IsLawful};

use crate::answer::{Mark, Plan};
use crate::floor::{cheapest, uniform_plan};
use crate::held::{begin, seek_at};
use crate::window::Held;
use crate::work::Work;
use ac_base::Shape;
use ac_expo::{Assign, RawExps};
use ac_seek::Seek;
use ac_windows::RunRows;

/// A tree of one coded channel has no more nodes.
const MOST: u32 = 4096;

/// A plan that is the best.
fn best(offset: u16, assign: Assign) -> Plan
    ensures offset { result.offset ≡ offset }
    ensures words { result.assign.w ≡ assign.w }
    ensures mark { result.mark ≡ Best }
{
    Plan {
        offset,
        assign,
        mark: Mark::Best,
    }
}

/// An assignment of a frame with one coded channel that fits at an offset, if any does. Its tree has at most 4,096 nodes.
fn find_one(shape: &Shape, rows: &RunRows, held: &mut Held, t: u16) -> Option<Assign>
    requires one { channels shape.now ≡ 1 }
    requires same { rows.now.shape ≡ shape.now }
    requires top { t ≤ 1023 }
    requires held { IsHeld shape.now rows.now.raw t held.old }
    ensures held { IsHeld shape.now rows.now.raw t held.new }
    ensures assignment { IfSome result (λ a. IsAssignmentOf shape.now a.w) }
    ensures fits { IfSome result (λ a. FitsAt shape.now rows.now.raw t a.w) }
    ensures none { IsNone result → IsFeasible shape.now rows.now.raw t → ⊥ }
{
    match seek_at(shape, rows, held, t, MOST) {
        Seek::Fits(assign) => Some(assign),
        Seek::Never { used: _ } => None,
        Seek::Spent => None,
    }
}

/// Searches the offsets of a frame with one coded channel from the root offset downwards, whatever the budget.
fn descend_one(shape: &Shape, rows: &RunRows, held: &mut Held, root: u16, nodes: u32) -> Plan
    requires one { channels shape.now ≡ 1 }
    requires same { rows.now.shape ≡ shape.now }
    requires cheapest { FitsAt shape.now rows.now.raw 0 (cheapest_assign shape.now) }
    requires root { IsRoot shape.now rows.now.raw root }
    requires held { IsHeld shape.now rows.now.raw root held.old }
    ensures lawful { IsLawful shape.now rows.now.raw nodes result }
    ensures mark { result.mark ≡ Best }
{
    let mut t = root;
    while t > 0 {
        if let Some(assign) = find_one(shape, rows, held, t) {
            return best(t, assign);
        }
        t -= 1;
    }
    best(0, cheapest(shape))
}

/// Searches the trees of the offsets from the root offset downwards. An offset that doesn't fit says nothing of the next.
fn descend(shape: &Shape, rows: &RunRows, held: &mut Held, root: u16, nodes: u32) -> Plan
    requires several { 2 ≤ channels shape.now }
    requires same { rows.now.shape ≡ shape.now }
    requires cheapest { FitsAt shape.now rows.now.raw 0 (cheapest_assign shape.now) }
    requires root { IsRoot shape.now rows.now.raw root }
    requires held { IsHeld shape.now rows.now.raw root held.old }
    requires nodes { nodes ≤ 10000000 }
    ensures lawful { IsLawful shape.now rows.now.raw nodes result }
{
    let mut left = nodes;
    let mut t = root;
    while t > 0 {
        match seek_at(shape, rows, held, t, left) {
            Seek::Fits(assign) => return best(t, assign),
            Seek::Never { used } => left -= used,
            Seek::Spent => return uniform_plan(shape, rows, held, t),
        }
        t -= 1;
    }
    uniform_plan(shape, rows, held, 0)
}

/// The plan of a frame by its runs.
fn search(shape: &Shape, rows: &RunRows, held: &mut Held, nodes: u32) -> Plan
    requires same { rows.now.shape ≡ shape.now }
    requires cheapest { FitsAt shape.now rows.now.raw 0 (cheapest_assign shape.now) }
    requires nodes { nodes ≤ 10000000 }
    ensures lawful { IsLawful shape.now rows.now.raw nodes result }
    ensures one { channels shape.now ≡ 1 → result.mark ≡ Best }
{
    let root = begin(shape, rows, held);
    if shape.coded() == 1 {
        descend_one(shape, rows, held, root, nodes)
    } else {
        descend(shape, rows, held, root, nodes)
    }
}

/// The greatest offset at which some assignment fits a frame, and one that does, by the frame's raw exponents, where the cheapest
/// assignment fits at offset 0. With several coded channels the trees of the offsets from the root offset downwards are searched
/// with so many nodes in all, at most 10,000,000. Where they have more down to some offset, the plan is the greatest offset at
/// which some uniform assignment fits, with that one as a bound. One coded channel needs no budget.
pub fn plan(shape: &Shape, raw: &RawExps, nodes: u32) -> Plan
    requires cheapest { FitsAt shape.now raw.now.e 0 (cheapest_assign shape.now) }
    requires nodes { nodes ≤ 10000000 }
    ensures lawful { IsLawful shape.now raw.now.e nodes result }
    ensures one { channels shape.now ≡ 1 → result.mark ≡ Best }
{
    let mut work = Work::of(shape, raw);
    search(shape, &work.rows, &mut work.held, nodes)
}

/// The same, worked out in arrays that are lent, whatever was in them.
pub fn plan_in(shape: &Shape, raw: &RawExps, nodes: u32, work: &mut Work) -> Plan
    requires cheapest { FitsAt shape.now raw.now.e 0 (cheapest_assign shape.now) }
    requires nodes { nodes ≤ 10000000 }
    ensures lawful { IsLawful shape.now raw.now.e nodes result }
    ensures one { channels shape.now ≡ 1 → result.mark ≡ Best }
{
    work.rows.fill(shape, raw);
    search(shape, &work.rows, &mut work.held, nodes)
}
