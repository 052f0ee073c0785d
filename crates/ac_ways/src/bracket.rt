//! The root offset, by a bracket that windows of offsets make smaller.
ghost use Rattle.std.specs.Prelude.{◌≡◌, ◌<◌, ◌≤◌, ◌+◌, ◌*◌, ◌^◌, ◌↔◌, ℕ, List, IsTrue, slice_index};
ghost use Rattle.ac_base.specs.Fit.{side_of};
ghost use Rattle.ac_cost.specs.Parts.{FitsAt, IsFeasible, cheapest_assign};
ghost use Rattle.ac_cost.specs.Sixths.{part_of};
ghost use Rattle.ac_bound.specs.Bounds.{lower_of, nothing, IsOver};
ghost use Rattle.ac_bound.specs.Roots.{IsRoot};
ghost use Rattle.ac_windows.specs.Windows.{IsWindow};
ghost use Rattle.ac_ways.specs.Sixteen.{ways_at, AreWays, AreTotals, IsBracket, IsOutside};

use crate::filled::ways;
use crate::guess::{first_guess, next_guess};
use crate::held::Ways;
use ac_base::{Shape, side_bits};
use ac_bound::is_over;
use ac_windows::{RunRows, Window};

/// An offset that the lower bound doesn't rule out, and one from which on it rules out all.
#[derive(Clone, Copy, Debug)]
pub struct Bracket {
    pub low: u16,
    pub high: u16,
}

/// The sum of each two.
#[inline]
fn sums(a: &[u64; 16], b: &[u32; 16]) -> [u64; 16]
    requires { (j : ℕ) → j < 16 → slice_index a.now j ≤ 2 ^ 42 }
    ensures value { (j : ℕ) → j < 16 → slice_index result j ≡ slice_index a.now j + slice_index b.now j }
    ensures bound { (j : ℕ) → j < 16 → slice_index result j ≤ slice_index a.now j + 2 ^ 32 }
{
    let mut sums = [0; 16];
    for j in 0..16 {
        sums[j] = a[j] + u64::from(b[j]);
    }
    sums
}

/// The lower bounds in a part where nothing is decided, by its side bits.
fn part_totals(shape: &Shape, ways: &Ways, part: usize, side: u32) -> [u64; 16]
    requires part { part < 3 }
    requires side { side ≡ part_of (side_of shape.now.acmod shape.now.lfe shape.now.couple) part }
    ensures { (j : ℕ) → j < 16 → slice_index result j ≡ lower_of shape.now (ways_at ways.now.p j) nothing part }
{
    let mut totals = [6 * u64::from(side); 16];
    for c in 0..shape.coded() {
        totals = sums(&totals, &ways.p[usize::from(c)][part][0]);
    }
    totals
}

/// Those in each part.
fn totals(shape: &Shape, ways: &Ways) -> [[u64; 16]; 3]
    ensures { AreTotals shape.now ways.now.p result }
{
    let side = side_bits(shape);
    [
        part_totals(shape, ways, 0, side.front),
        part_totals(shape, ways, 1, side.total),
        part_totals(shape, ways, 2, side.last),
    ]
}

/// Whether the lower bound rules out each assignment at one of the offsets.
fn is_closed(shape: &Shape, totals: &[[u64; 16]; 3], j: usize) -> bool
    requires { j < 16 }
    ensures value { (p : List (List (List (List ℕ)))) → AreTotals shape.now p totals.now
        → IsTrue result ↔ IsOver shape.now (lower_of shape.now (ways_at p j) nothing) }
{
    is_over(shape, &[totals[0][j], totals[1][j], totals[2][j]])
}

/// What one of the offsets leaves of a bracket.
fn narrow_at(
    shape: &Shape,
    totals: &[[u64; 16]; 3],
    t0: u16,
    j: usize,
    bracket: &Bracket,
) -> Bracket
    requires start { t0 ≤ 1008 }
    requires j { j < 16 }
    ensures value { (raw : List (List (List ℕ))) (p : List (List (List (List ℕ)))) → AreWays shape.now raw t0 p
        → AreTotals shape.now p totals.now → IsBracket shape.now raw bracket.now → IsBracket shape.now raw result }
    ensures low { bracket.now.low ≤ result.low }
    ensures high { result.high ≤ bracket.now.high }
    ensures tried { IsOutside result (t0 + j) }
{
    let t = t0 + j as u16;
    if is_closed(shape, totals, j) {
        Bracket {
            low: bracket.low,
            high: bracket.high.min(t),
        }
    } else {
        Bracket {
            low: bracket.low.max(t),
            high: bracket.high,
        }
    }
}

/// What a window that begins at t0 leaves of a bracket.
fn narrow(shape: &Shape, totals: &[[u64; 16]; 3], t0: u16, bracket: &Bracket) -> Bracket
    requires { t0 ≤ 1008 }
    ensures value { (raw : List (List (List ℕ))) (p : List (List (List (List ℕ)))) → AreWays shape.now raw t0 p
        → AreTotals shape.now p totals.now → IsBracket shape.now raw bracket.now → IsBracket shape.now raw result }
    ensures low { bracket.now.low ≤ result.low }
    ensures high { result.high ≤ bracket.now.high }
    ensures tried { (j : ℕ) → j < 16 → IsOutside result (t0 + j) }
{
    let mut left = *bracket;
    for j in 0..16usize {
        left = narrow_at(shape, totals, t0, j, &left);
    }
    left
}

/// Where the next window begins, by a guess: it has some offset inside the bracket.
fn start(bracket: &Bracket, guess: u16) -> u16
    requires inside { bracket.now.low + 1 < bracket.now.high }
    requires within { bracket.now.high ≤ 1024 }
    ensures bound { result ≤ 1008 }
    ensures below { result < bracket.now.high }
    ensures above { bracket.now.low + 1 < result + 16 }
{
    let last = bracket.high.saturating_sub(16);
    guess
        .saturating_sub(6)
        .min(last)
        .max(bracket.low + 1)
        .min(1008)
}

/// The root offset, and the first offset of a window.
#[derive(Clone, Copy, Debug)]
pub struct Reached {
    pub offset: u16,
    pub first: u16,
}

/// Makes the window from t0 on with its potentials, and gives its lower bounds where nothing is decided.
fn look(
    shape: &Shape,
    rows: &RunRows,
    t0: u16,
    window: &mut Window,
    at_each: &mut Ways,
) -> [[u64; 16]; 3]
    requires same { rows.now.shape ≡ shape.now }
    requires start { t0 ≤ 1008 }
    ensures window { IsWindow shape.now rows.now.raw t0 window.new.six }
    ensures ways { AreWays shape.now rows.now.raw t0 at_each.new.p }
    ensures totals { AreTotals shape.now at_each.new.p result }
{
    rows.window(t0, window);
    ways(shape, window, at_each);
    totals(shape, at_each)
}

/// R, the greatest offset from 0 to 1023 that the lower bound doesn't rule out, by the runs of a shape of which the cheapest
/// assignment fits at offset 0. No offset above it is feasible. The last window that was made is left, with its potentials.
pub fn root(shape: &Shape, rows: &RunRows, window: &mut Window, at_each: &mut Ways) -> Reached
    requires same { rows.now.shape ≡ shape.now }
    requires cheapest { FitsAt shape.now rows.now.raw 0 (cheapest_assign shape.now) }
    ensures value { IsRoot shape.now rows.now.raw result.offset }
    ensures feasible { (t : ℕ) → t ≤ 1023 → IsFeasible shape.now rows.now.raw t → t ≤ result.offset }
    ensures first { result.first ≤ 1008 }
    ensures window { IsWindow shape.now rows.now.raw result.first window.new.six }
    ensures ways { AreWays shape.now rows.now.raw result.first at_each.new.p }
{
    let whole = Bracket { low: 0, high: 1024 };
    let mut first = start(&whole, first_guess(shape, rows));
    let mut totals = look(shape, rows, first, window, at_each);
    let mut bracket = narrow(shape, &totals, first, &whole);
    let mut turns = 1u32;
    while bracket.high - bracket.low > 1 {
        let guess = next_guess(shape, &totals, first, &bracket, turns);
        first = start(&bracket, guess);
        totals = look(shape, rows, first, window, at_each);
        bracket = narrow(shape, &totals, first, &bracket);
        turns = turns.saturating_add(1);
    }
    Reached {
        offset: bracket.low,
        first,
    }
}
