//! The correlation of numbers that are 0 but at a few places: place by place.
ghost use Rattle.std.specs.Prelude.{◌≡◌, ◌<◌, ◌≤◌, ◌^◌, ◌+◌, ◌*◌, ◌/◌, ◌%◌, ◌+ℤ◌, ◌*ℤ◌, ℤ, unsigned_abs};
ghost use Rattle.ac_base.specs.Sigma.{Within, Lists, sigma};
ghost use Rattle.ac_convolution.specs.Negacyclic.{wave, items, negacyclic};

/// Number `n` of the factors that go on with the opposite sign.
#[inline]
fn entry(h: &[i32; 256], n: usize) -> i32
    requires { Within (2 ^ 30) 256 h.now }
    ensures value { result ≡ wave 256 (items h.now) n }
    ensures bound { unsigned_abs result ≤ 2 ^ 30 }
{
    let z = h[n % 256];
    if n / 256 % 2 == 0 { z } else { -z }
}

/// The factors, and their opposites behind them.
fn widened(h: &[i32; 256]) -> [i32; 512]
    requires { Within (2 ^ 30) 256 h.now }
    ensures value { Lists 512 (wave 256 (items h.now)) result }
    ensures bound { Within (2 ^ 30) 512 result }
{
    let mut w = [0i32; 512];
    for n in 0..512usize {
        w[n] = entry(h, n);
    }
    w
}

/// The total and one product more.
#[inline]
fn add_product(total: i64, a: i32, b: i32) -> i64
    requires total { unsigned_abs total ≤ 255 * 2 ^ 54 }
    requires left { unsigned_abs a ≤ 2 ^ 24 }
    requires right { unsigned_abs b ≤ 2 ^ 30 }
    ensures { result ≡ total +ℤ (a *ℤ b) }
{
    ac_base::add_product(total, a, b)
}

/// Adds the products of one number with the factors from `from` on.
fn add_products(total: &mut [i64; 256], factor: i32, factors: &[i32; 512], from: usize)
    requires total { Within (255 * 2 ^ 54) 256 total.old }
    requires factor { unsigned_abs factor ≤ 2 ^ 24 }
    requires factors { Within (2 ^ 30) 512 factors.now }
    requires place { from < 256 }
    ensures { Lists 256 (λ k. items total.old k +ℤ (factor *ℤ items factors.now (from + k))) total.new }
{
    for k in 0..256usize {
        total[k] = add_product(total[k], factor, factors[from + k]);
    }
}

/// The same, where a number that is 0 adds nothing.
fn add_place(total: &mut [i64; 256], factor: i32, factors: &[i32; 512], from: usize)
    requires total { Within (255 * 2 ^ 54) 256 total.old }
    requires factor { unsigned_abs factor ≤ 2 ^ 24 }
    requires factors { Within (2 ^ 30) 512 factors.now }
    requires place { from < 256 }
    ensures { Lists 256 (λ k. items total.old k +ℤ (factor *ℤ items factors.now (from + k))) total.new }
{
    if factor != 0 {
        add_products(total, factor, factors, from);
    }
}

/// The sums of products with the factors from each place on.
fn add_places(g: &[i32; 256], factors: &[i32; 512]) -> [i64; 256]
    requires g { Within (2 ^ 24) 256 g.now }
    requires factors { Within (2 ^ 30) 512 factors.now }
    ensures { Lists 256 (λ k. sigma 256 (λ i. items g.now i *ℤ items factors.now (i + k))) result }
{
    let mut total = [0i64; 256];
    for i in 0..256usize {
        add_place(&mut total, g[i], factors, i);
    }
    total
}

/// The negacyclic correlation of `g` and `h`, as `negacyclic_correlation` gives it, by 256 products for each number of `g` that isn't 0:
/// quicker where these are few.
pub fn sparse_correlation(g: &[i32; 256], h: &[i32; 256], out: &mut [i64; 256])
    requires g { Within (2 ^ 24) 256 g.now }
    requires h { Within (2 ^ 30) 256 h.now }
    ensures { Lists 256 (negacyclic (items g.now) (items h.now)) out.new }
{
    *out = add_places(g, &widened(h));
}
