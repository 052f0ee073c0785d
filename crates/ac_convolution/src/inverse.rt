//! The polynomial transform back: four classes of 8 rows, then 16 rows, each 32 times a row of the correlation.
ghost use Rattle.std.specs.Prelude.{◌<◌, ◌^◌, ◌+◌, ◌-◌, ◌*◌, ◌%◌, ◌+ℤ◌, ◌-ℤ◌, ℤ};
ghost use Rattle.ac_base.specs.Sigma.{Within, Lists};
ghost use Rattle.ac_convolution.specs.Negacyclic.{wave, items};
ghost use Rattle.ac_convolution.specs.Rows.{row, Rows, RowsWithin};
ghost use Rattle.ac_convolution.specs.Transform.{inverse_of, eighth_of, class_of, waves_of};

use crate::wide::{difference, opposite, sum};

/// The row, its opposite, and the row again, so that a turn reads on.
#[inline]
fn widened(x: &[i64; 16]) -> [i64; 48]
    requires { Within (2 ^ 56) 16 x.now }
    ensures value { Lists 48 (wave 16 (items x.now)) result }
    ensures bound { Within (2 ^ 56) 48 result }
{
    let mut w = [0i64; 48];
    for s in 0..16usize {
        w[s] = x[s];
    }
    for t in 16..32usize {
        w[t] = opposite(x[t - 16]);
    }
    for u in 32..48usize {
        w[u] = x[u - 32];
    }
    w
}

/// The sum, place by place.
#[inline]
fn plus(u: &[i64; 16], v: &[i64; 16]) -> [i64; 16]
    requires left { Within (2 ^ 55) 16 u.now }
    requires right { Within (2 ^ 55) 16 v.now }
    ensures value { Lists 16 (λ k. items u.now k +ℤ items v.now k) result }
    ensures bound { Within (2 ^ 56) 16 result }
    ensures small { Within (2 ^ 54) 16 u.now → Within (2 ^ 54) 16 v.now → Within (2 ^ 55) 16 result }
{
    let mut r = [0i64; 16];
    for k in 0..16usize {
        r[k] = sum(u[k], v[k]);
    }
    r
}

/// The difference, place by place.
#[inline]
fn minus(u: &[i64; 16], v: &[i64; 16]) -> [i64; 16]
    requires left { Within (2 ^ 55) 16 u.now }
    requires right { Within (2 ^ 55) 16 v.now }
    ensures value { Lists 16 (λ k. items u.now k -ℤ items v.now k) result }
    ensures bound { Within (2 ^ 56) 16 result }
    ensures small { Within (2 ^ 54) 16 u.now → Within (2 ^ 54) 16 v.now → Within (2 ^ 55) 16 result }
{
    let mut r = [0i64; 16];
    for k in 0..16usize {
        r[k] = difference(u[k], v[k]);
    }
    r
}

/// The row, turned by 8 places: half of the way to its opposite.
#[inline]
fn turned(v: &[i64; 16]) -> [i64; 16]
    requires { Within (2 ^ 55) 16 v.now }
    ensures value { Lists 16 (λ k. wave 16 (items v.now) (k + 8)) result }
    ensures bound { Within (2 ^ 55) 16 result }
{
    let mut r = [0i64; 16];
    for k in 0..8usize {
        r[k] = v[k + 8];
    }
    for m in 8..16usize {
        r[m] = opposite(v[m - 8]);
    }
    r
}

/// The sums, and the differences, of rows 16 apart.
fn pairs(q: &[[i64; 16]; 32], even: &mut [[i64; 16]; 16], odd: &mut [[i64; 16]; 16])
    requires { RowsWithin (2 ^ 54) 32 16 q.now }
    ensures even { Rows 16 16 (λ e k. items (row q.now e) k +ℤ items (row q.now (e + 16)) k) even.new }
    ensures odd { Rows 16 16 (λ e k. items (row q.now e) k -ℤ items (row q.now (e + 16)) k) odd.new }
    ensures small_even { RowsWithin (2 ^ 55) 16 16 even.new }
    ensures small_odd { RowsWithin (2 ^ 55) 16 16 odd.new }
{
    for e in 0..16usize {
        even[e] = plus(&q[e], &q[e + 16]);
    }
    for d in 0..16usize {
        odd[d] = minus(&q[d], &q[d + 16]);
    }
}

/// The 8 rows of each of the four classes: what the rows of the result equal to 0, 1, 2 and 3 modulo 4 are summed from.
fn classes(q: &[[i64; 16]; 32], x: &mut [[i64; 48]; 32])
    requires { RowsWithin (2 ^ 54) 32 16 q.now }
    ensures value { Rows 32 48 (class_of (waves_of q.now)) x.new }
    ensures bound { RowsWithin (2 ^ 56) 32 48 x.new }
{
    let mut even = [[0i64; 16]; 16];
    let mut odd = [[0i64; 16]; 16];
    pairs(q, &mut even, &mut odd);
    for a in 0..8usize {
        x[a] = widened(&plus(&even[a], &even[a + 8]));
    }
    for b in 8..16usize {
        x[b] = widened(&minus(&odd[b - 8], &turned(&odd[b])));
    }
    for c in 16..24usize {
        x[c] = widened(&minus(&even[c - 16], &even[c - 8]));
    }
    for d in 24..32usize {
        x[d] = widened(&plus(&odd[d - 24], &turned(&odd[d - 16])));
    }
}

/// Adds the row, turned by `from` places.
#[inline]
fn add_window(total: &mut [i64; 16], row: &[i64; 48], from: usize)
    requires total { Within (7 * 2 ^ 56) 16 total.old }
    requires row { Within (2 ^ 56) 48 row.now }
    requires place { from < 32 }
    ensures { Lists 16 (λ k. items total.old k +ℤ items row.now (from + k)) total.new }
{
    for k in 0..16usize {
        total[k] = sum(total[k], row[from + k]);
    }
}

/// Row `i` of the result, from the 8 rows of its class.
#[inline]
fn eighth(x: &[[i64; 48]; 32], i: usize) -> [i64; 16]
    requires bound { RowsWithin (2 ^ 56) 32 48 x.now }
    requires place { i < 16 }
    ensures { Lists 16 (eighth_of x.now i) result }
{
    let mut total = [0i64; 16];
    for e in 0..8usize {
        add_window(&mut total, &x[8 * (i % 4) + e], 31 * (e * i) % 32);
    }
    total
}

/// The 16 rows of sums of 32 rows, of at most 2^54. `x` is room for the classes; what it holds before is of no account.
pub fn inverse(q: &[[i64; 16]; 32], x: &mut [[i64; 48]; 32], out: &mut [[i64; 16]; 16])
    requires { RowsWithin (2 ^ 54) 32 16 q.now }
    ensures { Rows 16 16 (inverse_of (waves_of q.now)) out.new }
{
    classes(q, x);
    for i in 0..16usize {
        out[i] = eighth(x, i);
    }
}
