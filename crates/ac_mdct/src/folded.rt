//! 512 places folded to 256.
ghost use Rattle.std.specs.Prelude.{◌≡◌, ◌<◌, ◌≤◌, ◌^◌, ◌+◌, ◌-◌, ◌+ℤ◌, ◌-ℤ◌, ℕ, pos, unsigned_abs, slice_index_or};
ghost use Rattle.ac_base.specs.Sigma.{Within};
ghost use Rattle.ac_mdct.specs.Fold.{folded};
ghost use Rattle.ac_base.specs.Sigma.{Lists};

/// The difference of two windowed samples.
#[inline]
fn minus(a: i32, b: i32) -> i32
    requires left { unsigned_abs a ≤ 2 ^ 23 }
    requires right { unsigned_abs b ≤ 2 ^ 23 }
    ensures value { result ≡ a -ℤ b }
    ensures bound { unsigned_abs result ≤ 2 ^ 24 }
{
    a - b
}

/// The sum of two windowed samples.
#[inline]
fn plus(a: i32, b: i32) -> i32
    requires left { unsigned_abs a ≤ 2 ^ 23 }
    requires right { unsigned_abs b ≤ 2 ^ 23 }
    ensures value { result ≡ a +ℤ b }
    ensures bound { unsigned_abs result ≤ 2 ^ 24 }
{
    a + b
}

/// Folded value `i`.
#[inline]
#[tactic(auto, unfolding(crate::specs::Fold::folded))]
fn entry(v: &[i32; 512], i: usize) -> i32
    requires bound { Within (2 ^ 23) 512 v.now }
    requires place { i < 256 }
    ensures value { result ≡ folded v.now i }
    ensures bound { unsigned_abs result ≤ 2 ^ 24 }
{
    if i < 128 {
        minus(v[i], v[255 - i])
    } else {
        plus(v[i + 128], v[639 - i])
    }
}

/// Folds the 512 windowed samples `v` of a block, of at most 2^23 in magnitude, to the 256 values of at most 2^24 that have the same
/// sums with the cosines of A/52 8.2.3.2: these are odd about place 127 and a half, and even about place 383 and a half.
///
/// `out[n]` is `v[n] - v[255 - n]` for n below 128, and `out[n - 128]` is `v[n] + v[767 - n]` for n from 256 to 383.
pub fn fold(v: &[i32; 512], out: &mut [i32; 256])
    requires { Within (2 ^ 23) 512 v.now }
    ensures value { Lists 256 (folded v.now) out.new }
    ensures low { (n : ℕ) → n < 128
        → slice_index_or out.new n (pos 0) ≡ slice_index_or v.now n (pos 0) -ℤ slice_index_or v.now (255 - n) (pos 0) }
    ensures high { (n : ℕ) → 256 ≤ n → n < 384
        → slice_index_or out.new (n - 128) (pos 0) ≡ slice_index_or v.now n (pos 0) +ℤ slice_index_or v.now (767 - n) (pos 0) }
    ensures bound { Within (2 ^ 24) 256 out.new }
{
    for i in 0..256 {
        out[i] = entry(v, i);
    }
}
