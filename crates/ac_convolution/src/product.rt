//! The products row by row. One step of Karatsuba's makes each of 16 numbers by 16 from three times 8 by 8.
ghost use Rattle.std.specs.Prelude.{◌≡◌, ◌<◌, ◌≤◌, ◌^◌, ◌+◌, ◌-◌, ◌*◌, ◌+ℤ◌, ◌*ℤ◌, ℤ, unsigned_abs};
ghost use Rattle.ac_base.specs.Sigma.{Within, Lists};
ghost use Rattle.ac_convolution.specs.Negacyclic.{items};
ghost use Rattle.ac_convolution.specs.Rows.{row, Rows, RowsWithin};
ghost use Rattle.ac_convolution.specs.Transform.{eight_of, joined_of};

/// The total and one product more; both factors fit 32 bits, so that one instruction multiplies them.
#[inline]
fn add_product(total: i64, a: i64, b: i64) -> i64
    requires total { unsigned_abs total ≤ 15 * 2 ^ 50 }
    requires left { unsigned_abs a ≤ 2 ^ 29 }
    requires right { unsigned_abs b ≤ 2 ^ 21 }
    ensures { result ≡ total +ℤ (a *ℤ b) }
{
    ac_base::add_product(total, a as i32, b as i32)
}

/// Adds the products of one number with 8 entries of the table.
#[inline]
fn add_products(total: &mut [i64; 8], factor: i64, kernel: &[i64; 48], from: usize)
    requires total { Within (15 * 2 ^ 50) 8 total.old }
    requires factor { unsigned_abs factor ≤ 2 ^ 29 }
    requires kernel { Within (2 ^ 21) 48 kernel.now }
    requires place { from < 40 }
    ensures { Lists 8 (λ k. items total.old k +ℤ (factor *ℤ items kernel.now (from + k))) total.new }
{
    for k in 0..8usize {
        total[k] = add_product(total[k], factor, kernel[from + k]);
    }
}

/// 8 sums of 8 products.
#[inline]
fn eight(parts: &[i64; 24], at: usize, kernel: &[i64; 48], from: usize) -> [i64; 8]
    requires parts { Within (2 ^ 29) 24 parts.now }
    requires kernel { Within (2 ^ 21) 48 kernel.now }
    requires at { at ≤ 16 }
    requires from { from ≤ 32 }
    ensures value { Lists 8 (eight_of (items parts.now) at (items kernel.now) from) result }
    ensures bound { Within (2 ^ 53) 8 result }
{
    let mut total = [0i64; 8];
    for s in 0..8usize {
        add_products(&mut total, parts[at + s], kernel, from + s);
    }
    total
}

/// 8 sums of 8 products, begun from those that both halves share.
#[inline]
fn eight_more(
    start: &[i64; 8],
    parts: &[i64; 24],
    at: usize,
    kernel: &[i64; 48],
    from: usize,
) -> [i64; 8]
    requires start { Within (2 ^ 53) 8 start.now }
    requires parts { Within (2 ^ 29) 24 parts.now }
    requires kernel { Within (2 ^ 21) 48 kernel.now }
    requires at { at ≤ 16 }
    requires from { from ≤ 32 }
    ensures value { Lists 8 (λ k. items start.now k +ℤ eight_of (items parts.now) at (items kernel.now) from k) result }
    ensures bound { Within (2 ^ 54) 8 result }
{
    let mut total = *start;
    for s in 0..8usize {
        add_products(&mut total, parts[at + s], kernel, from + s);
    }
    total
}

/// The 16 sums of a row.
#[inline]
fn product(parts: &[i64; 24], kernel: &[i64; 48]) -> [i64; 16]
    requires parts { Within (2 ^ 29) 24 parts.now }
    requires kernel { Within (2 ^ 21) 48 kernel.now }
    ensures value { Lists 16 (joined_of (items parts.now) (items kernel.now)) result }
    ensures bound { Within (2 ^ 54) 16 result }
{
    let both = eight(parts, 16, kernel, 32);
    let low = eight_more(&both, parts, 0, kernel, 0);
    let high = eight_more(&both, parts, 8, kernel, 16);
    let mut r = [0i64; 16];
    for k in 0..8usize {
        r[k] = low[k];
    }
    for m in 8..16usize {
        r[m] = high[m - 8];
    }
    r
}

/// The 16 sums of products of each of 32 rows with its row of the table, of at most 2^54.
pub fn products(parts: &[[i64; 24]; 32], kernels: &[[i64; 48]; 32], out: &mut [[i64; 16]; 32])
    requires parts { RowsWithin (2 ^ 29) 32 24 parts.now }
    requires kernels { RowsWithin (2 ^ 21) 32 48 kernels.now }
    ensures value { Rows 32 16 (λ e. joined_of (items (row parts.now e)) (items (row kernels.now e))) out.new }
    ensures bound { RowsWithin (2 ^ 54) 32 16 out.new }
{
    for e in 0..32usize {
        out[e] = product(&parts[e], &kernels[e]);
    }
}
