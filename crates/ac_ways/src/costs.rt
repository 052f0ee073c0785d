//! What the runs of a coded channel cost in a part, at sixteen offsets side by side.
ghost use Rattle.std.specs.Prelude.{◌≡◌, ◌<◌, ◌≤◌, ◌+◌, ◌*◌, ◌^◌, ℕ, slice_index};
ghost use Rattle.ac_cost.specs.Records.{AtOffset};
ghost use Rattle.ac_cost.specs.Sixths.{sent_in, in_part, run_sixths};
ghost use Rattle.ac_bound.specs.Steps.{between};
ghost use Rattle.ac_ways.specs.Columns.{AreCosts};

use crate::kinds::Kinds;
use ac_base::Run;
use ac_cost::row;

/// How many blocks of the runs between two boundaries a part counts.
pub fn blocks(part: usize, from: u8, to: u8) -> u32
    requires order { from < to }
    requires end { to ≤ 6 }
    ensures value { (kind cost : ℕ) → in_part part (between from to kind) cost ≡ result * cost }
    ensures bound { result ≤ 6 }
{
    match part {
        0 => u32::from(to.min(2) - from.min(2)),
        1 => u32::from(to - from),
        _ => u32::from(to == 6),
    }
}

/// What a part counts of the bits of exponents that block `from` sends.
pub fn sent(part: usize, from: u8, bits: u32) -> u32
    ensures value { (to kind : ℕ) → sent_in part (between from to kind) bits ≡ result }
    ensures bound { result ≤ bits }
{
    if part == 1 || part == 0 && from < 2 {
        bits
    } else {
        0
    }
}

/// Six times so many bits, and so many blocks with these sixths.
#[inline]
fn costs(bits: u32, blocks: u32, six: &[u16; 16]) -> [u32; 16]
    requires bits { bits ≤ 600 }
    requires blocks { blocks ≤ 6 }
    ensures value { (j : ℕ) → j < 16 → slice_index result j ≡ 6 * bits + blocks * slice_index six.now j }
    ensures bound { (j : ℕ) → j < 16 → slice_index result j ≤ 2 ^ 19 }
{
    let mut costs = [0; 16];
    for j in 0..16 {
        costs[j] = 6 * bits + blocks * u32::from(six[j]);
    }
    costs
}

/// What the runs of a kind between two boundaries cost in a part.
pub fn run_costs(kinds: &Kinds, rows: &[[u16; 16]; 63], part: usize, run: &Run) -> [u32; 16]
    requires order { run.now.from < run.now.to }
    requires end { run.now.to ≤ 6 }
    requires some { 1 ≤ run.now.kind }
    requires taken { run.now.kind ≤ kinds.now.count }
    ensures value { (v : AtOffset) (c j : ℕ) → AreCosts v c kinds.now rows.now j
        → slice_index result j ≡ run_sixths v.shape v.raw v.t part c run.now }
    ensures bound { (j : ℕ) → j < 16 → slice_index result j ≤ 2 ^ 19 }
{
    let bits = sent(part, run.from, kinds.bits[usize::from(run.kind)]);
    costs(bits, blocks(part, run.from, run.to), &rows[row(run)])
}
