//! Certificates of plans.
ghost use Rattle.std.specs.Prelude.{◌≡◌, ℕ, ◌-◌, ◌<◌, ◌≤◌, IfOk, length};
ghost use Rattle.ac_cost.specs.Parts.{FitsAt, IsFeasible, cheapest_assign};
ghost use Rattle.ac_cost.specs.Records.{at_offset};
ghost use Rattle.ac_bound.specs.Roots.{IsRoot};
ghost use Rattle.ac_trees.specs.Made.{AreInRange, IsLevel, AreLevels, upper_of, AreAbove, IsCertificate};

use crate::grow::build;
use crate::node::Node;
use crate::offset::Offset;
use ac_base::{NoMemory, Shape};
use ac_bound::{Pots, root};
use ac_claim::{Cert, Level, Levels};
use ac_cost::RunLists;
use ac_expo::RawExps;
use ac_plan::{Mark, Plan, plan};
use std::alloc::{AllocError, Global};

/// The least offset above which a plan says that nothing fits.
fn upper_of(plan: &Plan) -> u16
    ensures { result ≡ upper_of plan.now }
{
    match plan.mark {
        Mark::Best => plan.offset,
        Mark::Bounded { upper } => upper,
    }
}

/// Why nothing fits at an offset.
fn level(alloc: Global, shape: &Shape, lists: &RunLists, t: u16) -> Result<Level, AllocError>
    requires same { lists.now.shape ≡ shape.now }
    requires within { t ≤ 1023 }
    requires none { IsFeasible shape.now lists.now.raw t → ⊥ }
    ensures { IfOk result (IsLevel (at_offset shape.now lists.now.raw t)) }
{
    let table = lists.at(t);
    let pots = Pots::of(shape, &table);
    let offset = Offset {
        shape,
        table: &table,
        pots: &pots,
    };
    let tree = build(alloc, &offset, &Node::root(&table))?;
    Ok(Level { pots, tree })
}

/// Those of the offsets from one down to the one above another.
fn levels(
    alloc: Global,
    shape: &Shape,
    lists: &RunLists,
    top: u16,
    upper: u16,
) -> Result<Levels, AllocError>
    requires same { lists.now.shape ≡ shape.now }
    requires within { top ≤ 1023 }
    requires order { upper ≤ top }
    requires none { (t : ℕ) → upper < t → t ≤ 1023 → IsFeasible shape.now lists.now.raw t → ⊥ }
    ensures each { IfOk result (AreLevels shape.now lists.now.raw top) }
    ensures count { IfOk result (λ levels. length levels ≡ top - upper) }
{
    let mut made = Vec::new(alloc);
    let mut t = top;
    while t > upper {
        let next = level(alloc, shape, lists, t)?;
        made.push(next)?;
        t -= 1;
    }
    Ok(Levels::from_vec(made))
}

/// The potentials above the root offset.
fn over(shape: &Shape, lists: &RunLists, top: u16) -> Option<Pots>
    requires same { lists.now.shape ≡ shape.now }
    requires root { IsRoot shape.now lists.now.raw top }
    ensures { AreAbove shape.now lists.now.raw top result }
{
    if top < 1023 {
        Some(Pots::of(shape, &lists.at(top + 1)))
    } else {
        None
    }
}

/// A certificate of a frame's plan.
fn certificate(alloc: Global, shape: &Shape, raw: &RawExps, nodes: u32) -> Result<Cert, AllocError>
    requires cheapest { FitsAt shape.now raw.now.e 0 (cheapest_assign shape.now) }
    requires nodes { nodes ≤ 10000000 }
    requires range { AreInRange shape.now raw.now.e }
    ensures { IfOk result (IsCertificate shape.now raw.now nodes) }
{
    let made = plan(shape, raw, nodes);
    let lists = RunLists::of(shape, raw);
    let top = root(shape, &lists);
    let upper = upper_of(&made);
    let trees = levels(alloc, shape, &lists, top, upper)?;
    Ok(Cert {
        shape: *shape,
        raw: *raw,
        offset: made.offset,
        upper,
        assign: made.assign,
        top,
        over: over(shape, &lists, top),
        trees,
    })
}

/// A certificate of a frame's plan: that its assignment fits at its offset, and that none fits above an upper one, which is the offset
/// where the plan is the best. It has the potentials of each offset from the root offset down to the one above the upper, and of the
/// one above the root offset, and passes every test. The plan is that of `plan` for so many nodes, at most 10,000,000; the cheapest
/// assignment fits at offset 0, and the raw exponents of the coded channels' bins are at most 24.
///
/// # Errors
///
/// `NoMemory` where the memory for the trees wasn't there.
pub fn certify(alloc: Global, shape: &Shape, raw: &RawExps, nodes: u32) -> Result<Cert, NoMemory>
    requires cheapest { FitsAt shape.now raw.now.e 0 (cheapest_assign shape.now) }
    requires nodes { nodes ≤ 10000000 }
    requires range { AreInRange shape.now raw.now.e }
    ensures { IfOk result (IsCertificate shape.now raw.now nodes) }
{
    match certificate(alloc, shape, raw, nodes) {
        Ok(cert) => Ok(cert),
        Err(_) => Err(NoMemory),
    }
}
