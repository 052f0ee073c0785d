//! The least costs of the ways on of a coded channel in a part, at sixteen offsets side by side: those from one boundary between
//! blocks on, by those from the later ones.
ghost use Rattle.std.specs.Prelude.{◌≡◌, ◌<◌, ◌≤◌, ◌+◌, ◌-◌, ◌*◌, ◌^◌, ℕ, min, slice_index};
ghost use Rattle.ac_cost.specs.Records.{AtOffset};
ghost use Rattle.ac_bound.specs.Ways.{IsLeastFrom};
ghost use Rattle.ac_bound.specs.Steps.{kinds_of, IsLeastBetween, IsLeastOn};
ghost use Rattle.ac_ways.specs.Columns.{entry_of, AreCosts, AreFewFrom};

use crate::costs::{blocks, run_costs};
use crate::kinds::Kinds;
use ac_base::Run;

/// The lesser of each two.
#[inline]
fn lesser(a: &[u32; 16], b: &[u32; 16]) -> [u32; 16]
    ensures { (j : ℕ) → j < 16 → slice_index result j ≡ min (slice_index a.now j) (slice_index b.now j) }
{
    let mut least = [0; 16];
    for j in 0..16 {
        least[j] = a[j].min(b[j]);
    }
    least
}

/// The sum of each two.
#[inline]
fn sums(a: &[u32; 16], b: &[u32; 16]) -> [u32; 16]
    requires few { (j : ℕ) → j < 16 → slice_index a.now j ≤ 2 ^ 30 }
    requires more { (j : ℕ) → j < 16 → slice_index b.now j ≤ 2 ^ 30 }
    ensures { (j : ℕ) → j < 16 → slice_index result j ≡ slice_index a.now j + slice_index b.now j }
{
    let mut sums = [0; 16];
    for j in 0..16 {
        sums[j] = a[j] + b[j];
    }
    sums
}

/// The least costs in a part of the runs between two boundaries, of all kinds.
fn least_of_kinds(kinds: &Kinds, rows: &[[u16; 16]; 63], part: usize, from: u8, to: u8) -> [u32; 16]
    requires order { from < to }
    requires end { to ≤ 6 }
    ensures value { (v : AtOffset) (c j : ℕ) → AreCosts v c kinds.now rows.now j
        → IsLeastBetween v c part from to (kinds_of v.shape c + 1) (slice_index result j) }
    ensures bound { (j : ℕ) → j < 16 → slice_index result j ≤ 2 ^ 19 }
{
    let mut least = run_costs(kinds, rows, part, &Run { from, to, kind: 1 });
    for kind in 2..kinds.count + 1 {
        let next = run_costs(kinds, rows, part, &Run { from, to, kind });
        least = lesser(&least, &next);
    }
    least
}

/// The same; runs of which the part counts no block cost nothing there.
fn least_between(kinds: &Kinds, rows: &[[u16; 16]; 63], part: usize, from: u8, to: u8) -> [u32; 16]
    requires part { part < 3 }
    requires order { from < to }
    requires end { to ≤ 6 }
    ensures value { (v : AtOffset) (c j : ℕ) → AreCosts v c kinds.now rows.now j
        → IsLeastBetween v c part from to (kinds_of v.shape c + 1) (slice_index result j) }
    ensures bound { (j : ℕ) → j < 16 → slice_index result j ≤ 2 ^ 19 }
{
    if blocks(part, from, to) == 0 {
        return [0; 16];
    }
    least_of_kinds(kinds, rows, part, from, to)
}

/// The least costs in a part of the ways on from a boundary, by those from the later ones.
fn least_at(
    kinds: &Kinds,
    rows: &[[u16; 16]; 63],
    part: usize,
    at: u8,
    after: &[[u32; 16]; 7],
) -> [u32; 16]
    requires part { part < 3 }
    requires at { at < 6 }
    requires few { AreFewFrom (at + 1) after.now }
    ensures value { (v : AtOffset) (c j : ℕ) → AreCosts v c kinds.now rows.now j
        → IsLeastOn v c part at 7 (λ k. entry_of after.now k j) (slice_index result j) }
    ensures bound { (j : ℕ) → j < 16 → slice_index result j ≤ (6 - at) * 2 ^ 19 }
{
    let first = least_between(kinds, rows, part, at, at + 1);
    let mut least = sums(&first, &after[usize::from(at + 1)]);
    for to in at + 2..7 {
        let next = least_between(kinds, rows, part, at, to);
        least = lesser(&least, &sums(&next, &after[usize::from(to)]));
    }
    least
}

/// Those from each boundary on.
pub fn part_ways(kinds: &Kinds, rows: &[[u16; 16]; 63], part: usize, out: &mut [[u32; 16]; 7])
    requires part { part < 3 }
    ensures value { (v : AtOffset) (c at j : ℕ) → AreCosts v c kinds.now rows.now j → at ≤ 6
        → IsLeastFrom v c part at (entry_of out.new at j) }
    ensures few { AreFewFrom 0 out.new }
{
    out[6] = [0; 16];
    for at in (0..6u8).rev() {
        out[usize::from(at)] = least_at(kinds, rows, part, at, out);
    }
}
