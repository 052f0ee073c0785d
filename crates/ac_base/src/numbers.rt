//! Whole numbers in fixed point, the square root and the sum of products.
ghost use Rattle.std.specs.Prelude.{◌≡◌, ◌<◌, ◌≤◌, ◌^◌, ◌+◌, ◌*◌, ◌-◌, ◌/◌, ◌⊎◌, ◌+ℤ◌, ◌*ℤ◌, ℤ, pos, unsigned_abs};
ghost use Rattle.ac_base.specs.Floor.{floor_div};
ghost use Rattle.ac_base.specs.Sigma.{dot_of, Within};

/// A number of scale 2^Q: `v` stands for v / 2^Q.
#[derive(Clone, Copy, Debug, PartialEq, Eq)]
pub struct Fix<const Q: u32> {
    /// The number times 2^Q.
    pub v: i64,
}

impl<const Q: u32> Fix<Q> {
    /// The nearest number of scale 2^P, a half rounded upwards.
    pub fn round<const P: u32>(self) -> Fix<P>
        requires fewer { P < Q }
        requires scale { Q ≤ 62 }
        requires small { unsigned_abs self.v ≤ 2 ^ 62 }
        ensures { result.v ≡ floor_div (self.entry.v +ℤ pos (2 ^ (Q - P - 1))) (2 ^ (Q - P)) }
    {
        Fix {
            v: round_by(self.v, Q - P),
        }
    }
}

/// 2^k.
fn power(k: u32) -> i64
    requires { k < 62 }
    ensures value { result ≡ pos (2 ^ k) }
    ensures bound { 2 ^ k ≤ 2 ^ 61 }
{
    1i64 << k
}

/// v / 2^k to the nearest, a half rounded upwards.
fn round_by(v: i64, k: u32) -> i64
    requires least { 0 < k }
    requires most { k ≤ 62 }
    requires small { unsigned_abs v ≤ 2 ^ 62 }
    ensures { result ≡ floor_div (v +ℤ pos (2 ^ (k - 1))) (2 ^ k) }
{
    let half = power(k - 1);
    (v + half) >> k
}

/// The square root, rounded downwards: the greatest number whose square is at most x.
pub fn isqrt(x: u128) -> u64
    ensures at_most { result * result ≤ x }
    ensures greatest { x < (result + 1) * (result + 1) }
{
    x.isqrt() as u64
}

/// The product at full width.
#[inline]
fn product(a: i32, b: i32) -> i64
    ensures { result ≡ a *ℤ b }
{
    i64::from(a) * i64::from(b)
}

/// The sum with one more product.
#[inline]
pub fn add_product(sum: i64, a: i32, b: i32) -> i64
    requires { unsigned_abs sum + unsigned_abs a * unsigned_abs b < 2 ^ 63 }
    ensures { result ≡ sum +ℤ (a *ℤ b) }
{
    sum + product(a, b)
}

/// The sum of the products of 256 or 512 numbers and as many factors of scale 2^30.
pub fn dot<const N: usize>(a: &[i32; N], b: &[i32; N]) -> i64
    requires size { (N ≡ 256) ⊎ (N ≡ 512) }
    requires left { Within (2 ^ 32 / N) N a.now }
    requires right { Within (2 ^ 30) N b.now }
    ensures { result ≡ dot_of N a.now b.now }
{
    let mut sum: i64 = 0;
    for i in 0..N {
        sum = add_product(sum, a[i], b[i]);
    }
    sum
}

#[cfg(test)]
mod tests;
