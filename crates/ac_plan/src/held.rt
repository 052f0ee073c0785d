//! A window of offsets with its potentials, held while offsets are searched downwards.
ghost use Rattle.std.specs.Prelude.{◌≡◌, ◌<◌, ◌≤◌, ◌+◌};
ghost use Rattle.ac_cost.specs.Parts.{FitsAt, cheapest_assign};
ghost use Rattle.ac_cost.specs.Records.{at_offset};
ghost use Rattle.ac_bound.specs.Roots.{IsRoot};
ghost use Rattle.ac_seek.specs.Answers.{Answers};
ghost use Rattle.ac_plan.specs.Helds.{IsHeld};

use crate::slice::Slice;
use crate::window::Held;
use ac_base::Shape;
use ac_seek::{Seek, seek};
use ac_ways::{pots_at, root, ways};
use ac_windows::RunRows;

/// Takes the window of which an offset is the last, or the lowest.
pub fn load(shape: &Shape, rows: &RunRows, t: u16, held: &mut Held)
    requires same { rows.now.shape ≡ shape.now }
    requires top { t ≤ 1023 }
    ensures held { IsHeld shape.now rows.now.raw t held.new }
    ensures below { held.new.first ≤ t }
{
    held.first = t.saturating_sub(15);
    rows.window(held.first, &mut held.window);
    ways(shape, &held.window, &mut held.ways);
}

/// The root offset, with a window that isn't below it.
pub fn begin(shape: &Shape, rows: &RunRows, held: &mut Held) -> u16
    requires same { rows.now.shape ≡ shape.now }
    requires cheapest { FitsAt shape.now rows.now.raw 0 (cheapest_assign shape.now) }
    ensures root { IsRoot shape.now rows.now.raw result }
    ensures held { IsHeld shape.now rows.now.raw result held.new }
{
    let root = root(shape, rows, &mut held.window, &mut held.ways);
    held.first = root.first;
    if root.first + 15 < root.offset {
        load(shape, rows, root.offset, held);
    }
    root.offset
}

/// Takes the next window where an offset is below the one that is held.
pub fn reach(shape: &Shape, rows: &RunRows, t: u16, held: &mut Held)
    requires same { rows.now.shape ≡ shape.now }
    requires top { t ≤ 1023 }
    requires held { IsHeld shape.now rows.now.raw t held.old }
    ensures held { IsHeld shape.now rows.now.raw t held.new }
    ensures below { held.new.first ≤ t }
{
    if t < held.first {
        load(shape, rows, t, held);
    }
}

/// What the runs cost at an offset of the window.
pub fn slice<'a>(shape: &'a Shape, rows: &'a RunRows, held: &'a Held, t: u16) -> Slice<'a>
    requires same { rows.now.shape ≡ shape.now }
    requires held { IsHeld shape.now rows.now.raw t held.now }
    requires below { held.now.first ≤ t }
    ensures value { result ≡ at_offset shape.now rows.now.raw t }
{
    Slice::of(shape, rows, &held.window, held.first, t - held.first)
}

/// Searches the tree of an offset with at most so many nodes.
pub fn seek_at(shape: &Shape, rows: &RunRows, held: &mut Held, t: u16, nodes: u32) -> Seek
    requires same { rows.now.shape ≡ shape.now }
    requires top { t ≤ 1023 }
    requires held { IsHeld shape.now rows.now.raw t held.old }
    requires nodes { nodes ≤ 10000000 }
    ensures held { IsHeld shape.now rows.now.raw t held.new }
    ensures value { Answers (at_offset shape.now rows.now.raw t) nodes result }
{
    reach(shape, rows, t, held);
    let pots = pots_at(&held.ways, usize::from(t - held.first));
    seek(shape, &slice(shape, rows, held, t), &pots, nodes)
}
