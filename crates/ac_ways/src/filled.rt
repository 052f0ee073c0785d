//! The potentials of a window.
ghost use Rattle.std.specs.Prelude.{◌<◌, ◌≤◌, ℕ, List, [], slice_index_or};
ghost use Rattle.ac_cost.specs.Records.{AtOffset};
ghost use Rattle.ac_bound.specs.Ways.{IsLeastFrom};
ghost use Rattle.ac_windows.specs.Windows.{IsWindow};
ghost use Rattle.ac_ways.specs.Columns.{entry_of, AreCosts, AreFewFrom};
ghost use Rattle.ac_ways.specs.Sixteen.{AreWays, AreFew};

use crate::held::Ways;
use crate::kinds::Kinds;
use crate::steps::part_ways;
use ac_base::Shape;
use ac_windows::Window;

/// The potentials of a coded channel, by part and boundary.
fn channel_ways(kinds: &Kinds, rows: &[[u16; 16]; 63], out: &mut [[[u32; 16]; 7]; 3])
    ensures value { (v : AtOffset) (c part at j : ℕ) → AreCosts v c kinds.now rows.now j → part < 3 → at ≤ 6
        → IsLeastFrom v c part at (entry_of (slice_index_or out.new part []) at j) }
    ensures few { (part : ℕ) → part < 3 → AreFewFrom 0 (slice_index_or out.new part []) }
{
    for part in 0..3 {
        part_ways(kinds, rows, part, &mut out[part]);
    }
}

/// The potentials of a shape at the offsets of a window, of the coded channels.
pub fn ways(shape: &Shape, window: &Window, out: &mut Ways)
    ensures value { (raw : List (List (List ℕ))) (t0 : ℕ) → IsWindow shape.now raw t0 window.now.six → AreWays shape.now raw t0 out.new.p }
    ensures bound { AreFew shape.now out.new.p }
{
    for c in 0..shape.coded() {
        let kinds = Kinds::of(&shape.span(c));
        let c = usize::from(c);
        channel_ways(&kinds, &window.six[c], &mut out.p[c]);
    }
}
