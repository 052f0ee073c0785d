//! The correlation, from the two halves of the factors: 15 bits each, so that products fit 64-bit lanes.
ghost use Rattle.std.specs.Prelude.{◌≡◌, ◌<◌, ◌≤◌, ◌^◌, ◌+◌, ◌*◌, ◌/◌, ◌%◌, ◌*ℤ◌, ℤ, pos, unsigned_abs};
ghost use Rattle.ac_base.specs.Floor.{floor_div};
ghost use Rattle.ac_base.specs.Sigma.{Within, Lists};
ghost use Rattle.ac_convolution.specs.Negacyclic.{wave, items, negacyclic};
ghost use Rattle.ac_convolution.specs.Rows.{row, Rows, RowsWithin};
ghost use Rattle.ac_convolution.specs.Transform.{inverse_of, joined_of, whole_of, IsTable};

use crate::forward::forward;
use crate::inverse::inverse;
use crate::product::products;

/// A 32nd of a number that is 32 times a sum: no bit is lost.
#[inline]
fn part(p: i64) -> i64
    requires { unsigned_abs p ≤ 2 ^ 52 }
    ensures value { result ≡ floor_div p 32 }
    ensures bound { unsigned_abs result ≤ 2 ^ 47 }
{
    p >> 5
}

/// `z` times 2^15, the scale of the high halves.
#[inline]
fn scaled(z: i64) -> i64
    requires { unsigned_abs z ≤ 2 ^ 47 }
    ensures value { result ≡ z *ℤ pos (2 ^ 15) }
    ensures bound { unsigned_abs result ≤ 2 ^ 62 }
{
    z * 32768
}

/// A sum, from 32 times the sums of both halves of the factors.
#[inline]
#[tactic(auto, unfolding(crate::specs::Transform::whole_of))]
fn whole(p: i64, q: i64) -> i64
    requires low { unsigned_abs p ≤ 2 ^ 52 }
    requires high { unsigned_abs q ≤ 2 ^ 52 }
    ensures { result ≡ whole_of p q }
{
    part(p) + scaled(part(q))
}

/// Sum `n` stands in row `n` modulo 16.
#[inline]
fn place(rows: &[[i64; 16]; 16], n: usize) -> i64
    requires { n < 256 }
    ensures { result ≡ items (row rows.now (n % 16)) (n / 16) }
{
    let line = &rows[n % 16];
    line[n / 16]
}

/// 32 times the sums of one half of the factors. `q` and `x` are room; what they hold before is of no account.
fn half(
    parts: &[[i64; 24]; 32],
    kernels: &[[i64; 48]; 32],
    q: &mut [[i64; 16]; 32],
    x: &mut [[i64; 48]; 32],
    out: &mut [[i64; 16]; 16],
)
    requires parts { RowsWithin (2 ^ 29) 32 24 parts.now }
    requires kernels { RowsWithin (2 ^ 21) 32 48 kernels.now }
    ensures { Rows 16 16 (inverse_of (λ e. wave 16 (joined_of (items (row parts.now e)) (items (row kernels.now e))))) out.new }
{
    products(parts, kernels, q);
    inverse(q, x, out);
}

/// The sums, from those of both halves.
fn join(low: &[[i64; 16]; 16], high: &[[i64; 16]; 16], out: &mut [i64; 256])
    requires low { RowsWithin (2 ^ 52) 16 16 low.now }
    requires high { RowsWithin (2 ^ 52) 16 16 high.now }
    ensures { Lists 256 (λ n. whole_of (items (row low.now (n % 16)) (n / 16)) (items (row high.now (n % 16)) (n / 16))) out.new }
{
    for n in 0..256usize {
        out[n] = whole(place(low, n), place(high, n));
    }
}

/// The negacyclic correlation of `g` and `h`: sum `k` is that of `g[i] * h[i + k]` over the 256 places `i`, where `h` goes
/// on behind its end with the opposite sign. `low` and `high` are the table of `h` that `kernel_table` makes.
///
/// Numbers of `g` are at most 2^24 and factors `h` at most 2^30 in magnitude, so that sums are at most 2^62.
pub fn negacyclic_correlation(
    g: &[i32; 256],
    h: &[i32; 256],
    low: &[[i64; 48]; 32],
    high: &[[i64; 48]; 32],
    out: &mut [i64; 256],
)
    requires g { Within (2 ^ 24) 256 g.now }
    requires h { Within (2 ^ 30) 256 h.now }
    requires table { IsTable h.now low.now high.now }
    ensures { Lists 256 (negacyclic (items g.now) (items h.now)) out.new }
{
    // all room before the first call: what is made behind one is zeroed twice
    let mut parts = [[0i64; 24]; 32];
    let mut q = [[0i64; 16]; 32];
    let mut x = [[0i64; 48]; 32];
    let mut first = [[0i64; 16]; 16];
    let mut second = [[0i64; 16]; 16];
    forward(g, &mut parts);
    half(&parts, low, &mut q, &mut x, &mut first);
    half(&parts, high, &mut q, &mut x, &mut second);
    join(&first, &second, out);
}
