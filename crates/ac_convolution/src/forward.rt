//! The polynomial transform of 256 numbers: 32 rows of 16, each followed by the 8 sums that Karatsuba's products ask for.
ghost use Rattle.std.specs.Prelude.{◌≡◌, ◌<◌, ◌≤◌, ◌^◌, ◌+◌, ◌-◌, ◌*◌, ◌%◌, ◌+ℤ◌, ◌-ℤ◌, ℤ, unsigned_abs};
ghost use Rattle.ac_base.specs.Sigma.{Within, Lists};
ghost use Rattle.ac_convolution.specs.Negacyclic.{items};
ghost use Rattle.ac_convolution.specs.Rows.{row, Rows, RowsWithin};
ghost use Rattle.ac_convolution.specs.Transform.{spread_of, forward_of, half_of, parts_of};

use crate::rows::spread;

/// `a + b`, without overflow.
#[inline]
fn sum(a: i32, b: i32) -> i32
    requires left { unsigned_abs a ≤ 2 ^ 28 }
    requires right { unsigned_abs b ≤ 2 ^ 28 }
    ensures value { result ≡ a +ℤ b }
    ensures bound { unsigned_abs result ≤ unsigned_abs a + unsigned_abs b }
{
    a + b
}

/// `a - b`, without overflow.
#[inline]
fn difference(a: i32, b: i32) -> i32
    requires left { unsigned_abs a ≤ 2 ^ 28 }
    requires right { unsigned_abs b ≤ 2 ^ 28 }
    ensures value { result ≡ a -ℤ b }
    ensures bound { unsigned_abs result ≤ unsigned_abs a + unsigned_abs b }
{
    a - b
}

/// Adds the row, turned by `from` places.
#[inline]
fn add_window(total: &mut [i32; 16], row: &[i32; 48], from: usize)
    requires total { Within (7 * 2 ^ 24) 16 total.old }
    requires row { Within (2 ^ 24) 48 row.now }
    requires place { from < 32 }
    ensures { Lists 16 (λ k. items total.old k +ℤ items row.now (from + k)) total.new }
{
    for k in 0..16usize {
        total[k] = sum(total[k], row[from + k]);
    }
}

/// Row `e` of the transform of the even rows (`from` 0) or of the odd ones (`from` 1).
#[inline]
fn every_other(rows: &[[i32; 48]; 16], from: usize, e: usize) -> [i32; 16]
    requires bound { RowsWithin (2 ^ 24) 16 48 rows.now }
    requires from { from < 2 }
    requires place { e < 16 }
    ensures value { Lists 16 (half_of rows.now from e) result }
    ensures bound { Within (2 ^ 27) 16 result }
{
    let mut total = [0i32; 16];
    for q in 0..8usize {
        let a = 2 * q + from;
        add_window(&mut total, &rows[a], e * a % 32);
    }
    total
}

/// The first 16 rows of the transform of the even rows, or of the odd ones.
fn halves(rows: &[[i32; 48]; 16], from: usize, out: &mut [[i32; 16]; 16])
    requires bound { RowsWithin (2 ^ 24) 16 48 rows.now }
    requires from { from < 2 }
    ensures value { Rows 16 16 (half_of rows.now from) out.new }
    ensures bound { RowsWithin (2 ^ 27) 16 16 out.new }
{
    for e in 0..16usize {
        out[e] = every_other(rows, from, e);
    }
}

/// The sum, place by place: rows 0 to 15 of the transform.
#[inline]
fn plus(u: &[i32; 16], v: &[i32; 16]) -> [i32; 16]
    requires left { Within (2 ^ 27) 16 u.now }
    requires right { Within (2 ^ 27) 16 v.now }
    ensures value { Lists 16 (λ k. items u.now k +ℤ items v.now k) result }
    ensures bound { Within (2 ^ 28) 16 result }
{
    let mut r = [0i32; 16];
    for k in 0..16usize {
        r[k] = sum(u[k], v[k]);
    }
    r
}

/// The difference, place by place: rows 16 to 31, where the odd rows have turned by half a round more.
#[inline]
fn minus(u: &[i32; 16], v: &[i32; 16]) -> [i32; 16]
    requires left { Within (2 ^ 27) 16 u.now }
    requires right { Within (2 ^ 27) 16 v.now }
    ensures value { Lists 16 (λ k. items u.now k -ℤ items v.now k) result }
    ensures bound { Within (2 ^ 28) 16 result }
{
    let mut r = [0i32; 16];
    for k in 0..16usize {
        r[k] = difference(u[k], v[k]);
    }
    r
}

/// A row and the 8 sums of places 8 apart, as 64-bit lanes.
#[inline]
fn parts(x: &[i32; 16]) -> [i64; 24]
    requires { Within (2 ^ 28) 16 x.now }
    ensures value { Lists 24 (parts_of (items x.now)) result }
    ensures bound { Within (2 ^ 29) 24 result }
{
    let mut r = [0i64; 24];
    for n in 0..16usize {
        r[n] = i64::from(x[n]);
    }
    for m in 16..24usize {
        r[m] = i64::from(sum(x[m - 16], x[m - 8]));
    }
    r
}

/// The 32 rows of the polynomial transform of `g`, each with its 8 sums: numbers of at most 2^24 give rows of at most 2^28, and sums of
/// at most 2^29.
pub fn forward(g: &[i32; 256], out: &mut [[i64; 24]; 32])
    requires { Within (2 ^ 24) 256 g.now }
    ensures value { Rows 32 24 (λ e. parts_of (forward_of (spread_of (items g.now)) e)) out.new }
    ensures bound { RowsWithin (2 ^ 29) 32 24 out.new }
{
    let mut rows = [[0i32; 48]; 16];
    let mut even = [[0i32; 16]; 16];
    let mut odd = [[0i32; 16]; 16];
    spread(g, &mut rows);
    halves(&rows, 0, &mut even);
    halves(&rows, 1, &mut odd);
    for e in 0..16usize {
        out[e] = parts(&plus(&even[e], &odd[e]));
    }
    for d in 16..32usize {
        out[d] = parts(&minus(&even[d - 16], &odd[d - 16]));
    }
}
