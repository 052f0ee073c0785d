//! 256 numbers as 16 rows of every sixteenth, each with its opposite behind it and once more itself: a turn reads on.
ghost use Rattle.std.specs.Prelude.{◌≡◌, ◌<◌, ◌≤◌, ◌^◌, ◌+◌, ◌*◌, neg_ℤ, unsigned_abs};
ghost use Rattle.ac_base.specs.Sigma.{Within, Lists};
ghost use Rattle.ac_convolution.specs.Negacyclic.{wave, items};
ghost use Rattle.ac_convolution.specs.Rows.{Rows, RowsWithin};
ghost use Rattle.ac_convolution.specs.Transform.{column_of, spread_of};

/// Every sixteenth number from `a` on.
#[inline]
fn column(g: &[i32; 256], a: usize) -> [i32; 16]
    requires bound { Within (2 ^ 24) 256 g.now }
    requires place { a < 16 }
    ensures value { Lists 16 (column_of (items g.now) a) result }
    ensures bound { Within (2 ^ 24) 16 result }
{
    let mut r = [0i32; 16];
    for s in 0..16usize {
        r[s] = g[16 * s + a];
    }
    r
}

/// `-z`.
#[inline]
fn opposite(z: i32) -> i32
    requires { unsigned_abs z ≤ 2 ^ 24 }
    ensures value { result ≡ neg_ℤ z }
    ensures bound { unsigned_abs result ≤ 2 ^ 24 }
{
    -z
}

/// The row, its opposite, and the row again.
#[inline]
fn widened(x: &[i32; 16]) -> [i32; 48]
    requires { Within (2 ^ 24) 16 x.now }
    ensures value { Lists 48 (wave 16 (items x.now)) result }
    ensures bound { Within (2 ^ 24) 48 result }
{
    let mut w = [0i32; 48];
    for s in 0..16usize {
        w[s] = x[s];
    }
    for t in 16..32usize {
        w[t] = opposite(x[t - 16]);
    }
    for u in 32..48usize {
        w[u] = x[u - 32];
    }
    w
}

/// The 16 rows of `g`, each of 48 numbers.
pub fn spread(g: &[i32; 256], rows: &mut [[i32; 48]; 16])
    requires { Within (2 ^ 24) 256 g.now }
    ensures value { Rows 16 48 (spread_of (items g.now)) rows.new }
    ensures bound { RowsWithin (2 ^ 24) 16 48 rows.new }
{
    for a in 0..16usize {
        rows[a] = widened(&column(g, a));
    }
}
