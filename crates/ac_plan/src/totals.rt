//! What uniform assignments cost in sixths of a bit.
ghost use Rattle.std.specs.Prelude.{◌≡◌, ◌<◌, ◌≤◌, ◌+◌, ◌*◌, ◌^◌, ℕ, slice_index};
ghost use Rattle.ac_base.specs.Sigma.{sum_below};
ghost use Rattle.ac_base.specs.Words.{IsRun, runs_of};
ghost use Rattle.ac_cost.specs.Records.{AtOffset};
ghost use Rattle.ac_cost.specs.Sixths.{run_sixths};
ghost use Rattle.ac_plan.specs.Totals.{others_of, beside_sixths, runs_beside, AreTotals, AreFewTotals, AreSides};

use ac_base::{Run, Shape, side_bits};
use ac_cost::{RunCosts, row, run_at};
use ac_expo::{Word, runs};

/// How many runs a channel can have.
const ROWS: usize = 63;

/// How many coded channels there are beside LFE, which is the last one.
pub fn others(shape: &Shape) -> u8
    ensures value { result ≡ others_of shape.now }
    ensures bound { result ≤ 6 }
{
    shape.full() + u8::from(shape.couple.is_some())
}

/// The sum of each two.
fn sums(a: &[u32; 3], b: &[u32; 3]) -> [u32; 3]
    requires few { (part : ℕ) → part < 3 → slice_index a.now part ≤ 6 * 2 ^ 19 }
    requires small { (part : ℕ) → slice_index b.now part ≤ 2 ^ 19 }
    ensures { (part : ℕ) → part < 3 → slice_index result part ≡ slice_index a.now part + slice_index b.now part }
{
    [a[0] + b[0], a[1] + b[1], a[2] + b[2]]
}

/// What a run costs in the coded channels but LFE, in each part.
fn all_but_low<C: RunCosts>(shape: &Shape, costs: &C, run: &Run) -> [u32; 3]
    requires same { (C.offset costs.now).shape ≡ shape.now }
    requires run { IsRun run.now }
    ensures value { let v = C.offset costs.now in (part : ℕ) → part < 3
        → slice_index result part ≡ sum_below (others_of v.shape) (λ c. run_sixths v.shape v.raw v.t part c run.now) }
    ensures bound { (part : ℕ) → part < 3 → slice_index result part ≤ 6 * 2 ^ 19 }
{
    let mut sum = [0; 3];
    for c in 0..others(shape) {
        sum = sums(&sum, &costs.run_sixths(c, run));
    }
    sum
}

/// What a run costs in all coded channels, in each part. LFE's is of its one kind.
fn total<C: RunCosts>(shape: &Shape, costs: &C, run: &Run) -> [u32; 3]
    requires same { (C.offset costs.now).shape ≡ shape.now }
    requires run { IsRun run.now }
    ensures value { (part : ℕ) → part < 3 → slice_index result part ≡ beside_sixths (C.offset costs.now) part run.now }
    ensures bound { (part : ℕ) → part < 3 → slice_index result part ≤ 2 ^ 22 }
{
    let sum = all_but_low(shape, costs, run);
    if !shape.lfe {
        return sum;
    }
    let low = Run { kind: 1, ..*run };
    sums(&sum, &costs.run_sixths(others(shape), &low))
}

/// Those of all runs by row.
pub fn totals<C: RunCosts>(shape: &Shape, costs: &C) -> [[u32; 3]; 63]
    requires same { (C.offset costs.now).shape ≡ shape.now }
    ensures value { AreTotals (C.offset costs.now) result }
    ensures few { AreFewTotals result }
{
    let mut totals = [[0; 3]; ROWS];
    for i in 0..ROWS {
        totals[i] = total(shape, costs, &run_at(i as u8));
    }
    totals
}

/// Six times the side bits of each part.
pub fn sides(shape: &Shape) -> [u64; 3]
    ensures { AreSides shape.now result }
{
    let side = side_bits(shape);
    [
        6 * u64::from(side.front),
        6 * u64::from(side.total),
        6 * u64::from(side.last),
    ]
}

/// The sum of each two.
fn more(a: &[u64; 3], b: &[u32; 3]) -> [u64; 3]
    requires { (part : ℕ) → part < 3 → slice_index a.now part ≤ 2 ^ 40 }
    ensures { (part : ℕ) → part < 3 → slice_index result part ≡ slice_index a.now part + slice_index b.now part }
{
    [
        a[0] + u64::from(b[0]),
        a[1] + u64::from(b[1]),
        a[2] + u64::from(b[2]),
    ]
}

/// The sixths of the uniform assignment of a word, in each part.
pub fn sixths(sides: &[u64; 3], totals: &[[u32; 3]; 63], word: &Word) -> [u64; 3]
    requires sides { (part : ℕ) → part < 3 → slice_index sides.now part ≤ 6 * 2 ^ 32 }
    requires few { AreFewTotals totals.now }
    ensures { (v : AtOffset) (part : ℕ) → AreTotals v totals.now → part < 3
        → slice_index result part ≡ slice_index sides.now part + runs_beside v part (runs_of word.now) }
{
    let mut sixths = *sides;
    for run in runs(word).as_slice() {
        sixths = more(&sixths, &totals[row(run)]);
    }
    sixths
}
