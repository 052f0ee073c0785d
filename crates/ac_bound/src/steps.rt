//! The least costs from one boundary between blocks on, by those from the later ones.
ghost use Rattle.std.specs.Prelude.{◌≡◌, ◌<◌, ◌≤◌, ◌+◌, ◌-◌, ◌*◌, ◌^◌, ℕ, min, slice_index};
ghost use Rattle.ac_expo.specs.Raw.{channels};
ghost use Rattle.ac_bound.specs.Steps.{kinds_of, IsLeastBetween, IsLeastOn, after_of, AreFewFrom};

use ac_base::Run;
use ac_cost::RunTable;

/// The lesser of each two.
fn lesser(a: &[u32; 3], b: &[u32; 3]) -> [u32; 3]
    ensures { (part : ℕ) → part < 3 → slice_index result part ≡ min (slice_index a.now part) (slice_index b.now part) }
{
    [a[0].min(b[0]), a[1].min(b[1]), a[2].min(b[2])]
}

/// The sum of each two.
fn sums(a: &[u32; 3], b: &[u32; 3]) -> [u32; 3]
    requires few { (part : ℕ) → part < 3 → slice_index a.now part ≤ 2 ^ 30 }
    requires more { (part : ℕ) → part < 3 → slice_index b.now part ≤ 2 ^ 30 }
    ensures { (part : ℕ) → part < 3 → slice_index result part ≡ slice_index a.now part + slice_index b.now part }
{
    [a[0] + b[0], a[1] + b[1], a[2] + b[2]]
}

/// The least sixths, in each part, of the runs of coded channel c between two boundaries, of the kinds up to `kinds`.
fn least_between(table: &RunTable, c: u8, kinds: u8, from: u8, to: u8) -> [u32; 3]
    requires channel { c < channels table.now.shape }
    requires kinds { kinds ≡ kinds_of table.now.shape c }
    requires order { from < to }
    requires end { to ≤ 6 }
    ensures value { (part : ℕ) → part < 3
        → IsLeastBetween table.now c part from to (kinds_of table.now.shape c + 1) (slice_index result part) }
    ensures bound { (part : ℕ) → part < 3 → slice_index result part ≤ 2 ^ 19 }
{
    let mut least = table.run_sixths(c, &Run { from, to, kind: 1 });
    for kind in 2..kinds + 1 {
        least = lesser(&least, &table.run_sixths(c, &Run { from, to, kind }));
    }
    least
}

/// The least sixths, in each part, of the ways on of coded channel c from boundary `at`, by those from the later boundaries.
pub fn least_at(table: &RunTable, c: u8, kinds: u8, at: u8, after: &[[u32; 3]; 7]) -> [u32; 3]
    requires channel { c < channels table.now.shape }
    requires kinds { kinds ≡ kinds_of table.now.shape c }
    requires at { at < 6 }
    requires few { AreFewFrom (at + 1) after.now }
    ensures value { (part : ℕ) → part < 3
        → IsLeastOn table.now c part at 7 (λ k. after_of after.now k part) (slice_index result part) }
    ensures bound { (part : ℕ) → part < 3 → slice_index result part ≤ (6 - at) * 2 ^ 19 }
{
    let first = least_between(table, c, kinds, at, at + 1);
    let mut least = sums(&first, &after[usize::from(at + 1)]);
    for to in at + 2..7 {
        let next = least_between(table, c, kinds, at, to);
        least = lesser(&least, &sums(&next, &after[usize::from(to)]));
    }
    least
}
