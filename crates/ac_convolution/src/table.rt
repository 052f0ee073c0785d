//! The table of 256 factors: the polynomial transforms of their two halves, laid out for Karatsuba's products.
ghost use Rattle.std.specs.Prelude.{◌≡◌, ◌<◌, ◌≤◌, ◌^◌, ◌+◌, ◌*◌, ◌/◌, ◌%◌, unsigned_abs};
ghost use Rattle.ac_base.specs.Sigma.{Within, Lists};
ghost use Rattle.ac_convolution.specs.Negacyclic.{wave, items};
ghost use Rattle.ac_convolution.specs.Rows.{row, Rows};
ghost use Rattle.ac_convolution.specs.Transform.{kernel_of, kernel_parts, table_of, high_of, low_of, IsTable};

use crate::wide::{difference, opposite, sum};

/// The nearest multiple of 2^15, over 2^15.
#[inline]
#[tactic(auto, unfolding(crate::specs::Transform::high_of))]
fn high_part(z: i32) -> i32
    requires { unsigned_abs z ≤ 2 ^ 30 }
    ensures value { result ≡ high_of z }
    ensures bound { unsigned_abs result ≤ 2 ^ 15 }
{
    (z + 16384) >> 15
}

/// The rest, from -2^14 to below 2^14.
#[inline]
#[tactic(auto, unfolding(crate::specs::Transform::low_of))]
fn low_part(z: i32) -> i32
    requires { unsigned_abs z ≤ 2 ^ 30 }
    ensures value { result ≡ low_of z }
{
    z - high_part(z) * 32768
}

/// The high halves of the factors.
fn highs(h: &[i32; 256]) -> [i32; 256]
    requires { Within (2 ^ 30) 256 h.now }
    ensures { Lists 256 (λ i. high_of (items h.now i)) result }
{
    let mut r = [0i32; 256];
    for i in 0..256usize {
        r[i] = high_part(h[i]);
    }
    r
}

/// The low halves of the factors.
fn lows(h: &[i32; 256]) -> [i32; 256]
    requires { Within (2 ^ 30) 256 h.now }
    ensures { Lists 256 (λ i. low_of (items h.now i)) result }
{
    let mut r = [0i32; 256];
    for i in 0..256usize {
        r[i] = low_part(h[i]);
    }
    r
}

/// Number `n` of the factors that go on with the opposite sign.
fn entry(half: &[i32; 256], n: usize) -> i64
    requires { Within (2 ^ 15) 256 half.now }
    ensures value { result ≡ wave 256 (items half.now) n }
    ensures bound { unsigned_abs result ≤ 2 ^ 15 }
{
    let z = i64::from(half[n % 256]);
    if n / 256 % 2 == 0 { z } else { -z }
}

/// Place `t` of row `e` of the factors' transform.
fn kernel(half: &[i32; 256], e: usize, t: usize) -> i64
    requires bound { Within (2 ^ 15) 256 half.now }
    requires row { e < 32 }
    requires place { t < 24 }
    ensures value { result ≡ kernel_of (wave 256 (items half.now)) e t }
    ensures bound { unsigned_abs result ≤ 2 ^ 20 }
{
    let mut total: i64 = 0;
    for j in 0..32usize {
        total = sum(total, entry(half, 16 * (t + e * j) + j));
    }
    total
}

/// Row `e` of the factors' transform.
fn kernels(half: &[i32; 256], e: usize) -> [i64; 24]
    requires bound { Within (2 ^ 15) 256 half.now }
    requires row { e < 32 }
    ensures value { Lists 24 (kernel_of (wave 256 (items half.now)) e) result }
    ensures bound { Within (2 ^ 20) 24 result }
{
    let mut r = [0i64; 24];
    for t in 0..24usize {
        r[t] = kernel(half, e, t);
    }
    r
}

/// The entries that Karatsuba's three products take: differences, opposites of sums, and the later ones.
#[tactic(auto, unfolding(crate::specs::Transform::kernel_parts))]
fn part(v: &[i64; 24], n: usize) -> i64
    requires bound { Within (2 ^ 20) 24 v.now }
    requires place { n < 48 }
    ensures { result ≡ kernel_parts (items v.now) n }
{
    if n < 16 {
        difference(v[n], v[n + 8])
    } else if n < 32 {
        opposite(sum(v[n - 16], v[n - 8]))
    } else {
        v[n - 24]
    }
}

/// A row of the table.
fn parts(v: &[i64; 24]) -> [i64; 48]
    requires { Within (2 ^ 20) 24 v.now }
    ensures { Lists 48 (kernel_parts (items v.now)) result }
{
    let mut r = [0i64; 48];
    for n in 0..48usize {
        r[n] = part(v, n);
    }
    r
}

/// The table of one half of the factors.
fn table(half: &[i32; 256], out: &mut [[i64; 48]; 32])
    requires { Within (2 ^ 15) 256 half.now }
    ensures { Rows 32 48 (table_of (items half.now)) out.new }
{
    for e in 0..32usize {
        out[e] = parts(&kernels(half, e));
    }
}

/// The table of `h`, factors of at most 2^30 in magnitude: 32 rows of 48 entries, of at most 2^21, for each half of their bits.
pub fn kernel_table(h: &[i32; 256], low: &mut [[i64; 48]; 32], high: &mut [[i64; 48]; 32])
    requires { Within (2 ^ 30) 256 h.now }
    ensures { IsTable h.now low.new high.new }
{
    table(&lows(h), low);
    table(&highs(h), high);
}
