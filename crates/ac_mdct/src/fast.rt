//! Both transforms: windowed and folded, in the order of the logarithms, by the sums of `ac_cosine_sums`.
ghost use Rattle.std.specs.Prelude.{◌≡◌, ◌<◌, ◌≤◌, ◌^◌, ◌+◌, ◌-◌, neg_ℤ, unsigned_abs};
ghost use Rattle.ac_base.specs.Sigma.{Within};
ghost use Rattle.ac_mdct.specs.Forward.{windowed, IsForward};
ghost use Rattle.ac_mdct.specs.Inverse.{inverse_sum, part, IsSound, IsDelay};
ghost use Rattle.ac_mdct.specs.Place.{place, unfolded};
ghost use Rattle.ac_mdct.specs.Overlap.{IsSoundIn, IsDelayIn, StaysOut};
ghost use Rattle.ac_base.specs.Sigma.{Lists};

use crate::folded::fold;
use crate::powers::{log, place_of, power_sum, spin_forward, spin_inverse};
use crate::rounding::{coefficient_of, part, sample};
use crate::windowing::windowed;

/// The 256 coefficients of 256 new samples `now` and the 256 before them, `prev` (A/52 8.2.3.2).
///
/// Samples have 24 bits, and coefficients the scale 2^24. Each coefficient is the one sum of 512 windowed
/// products, rounded once and clamped to less than 2^24 in magnitude.
pub fn forward(prev: &[i32; 256], now: &[i32; 256], out: &mut [i32; 256])
    requires before { Within (2 ^ 23) 256 prev.now }
    requires after { Within (2 ^ 23) 256 now.now }
    ensures value { IsForward prev.now now.now out.new }
    ensures bound { Within (2 ^ 24 - 1) 256 out.new }
{
    // all room before the first call: what is made behind one is zeroed twice
    let mut v = [0i32; 512];
    let mut u = [0i32; 256];
    let mut w = [0i32; 256];
    let mut sums = [0i64; 256];
    windowed(prev, now, &mut v);
    fold(&v, &mut u);
    spin_forward(&u, &mut w);
    ac_cosine_sums::cosine_sums(&w, &mut sums);
    for k in 0..256usize {
        out[k] = coefficient_of(power_sum(&sums, &w, log(k)));
    }
}

/// T(n) at the places that are kept.
fn inverse_sums(coefs: &[i32; 256], out: &mut [i64; 256])
    requires { Within (2 ^ 24) 256 coefs.now }
    ensures value { Lists 256 (λ i. inverse_sum coefs.now (place i)) out.new }
    ensures bound { Within (2 ^ 62) 256 out.new }
{
    let mut w = [0i32; 256];
    let mut sums = [0i64; 256];
    spin_inverse(coefs, &mut w);
    ac_cosine_sums::cosine_sums(&w, &mut sums);
    for i in 0..256usize {
        out[i] = power_sum(&sums, &w, log(place_of(i as u8) + 128));
    }
}

#[inline]
fn negated(t: i64) -> i64
    requires { unsigned_abs t ≤ 2 ^ 62 }
    ensures value { result ≡ neg_ℤ t }
    ensures bound { unsigned_abs result ≤ 2 ^ 62 }
{
    -t
}

#[inline]
#[tactic(auto, unfolding(crate::specs::Place::unfolded))]
fn unfold(sums: &[i64; 256], n: usize) -> i64
    requires bound { Within (2 ^ 62) 256 sums.now }
    requires place { n < 512 }
    ensures value { result ≡ unfolded sums.now n }
    ensures bound { unsigned_abs result ≤ 2 ^ 62 }
{
    if n < 128 {
        sums[n]
    } else if n < 256 {
        negated(sums[255 - n])
    } else if n < 384 {
        sums[n - 128]
    } else {
        sums[639 - n]
    }
}

/// The first 128 places of a block: the samples, and what it leaves for the next.
fn lower(sums: &[i64; 256], delay: &mut [i64; 256], out: &mut [i32; 256])
    requires sums { Within (2 ^ 62) 256 sums.now }
    requires delay { Within (2 ^ 55) 256 delay.old }
    ensures sound { IsSoundIn 0 128 sums.now delay.old out.new }
    ensures delay { IsDelayIn 0 128 sums.now delay.new }
    ensures rest { StaysOut 0 128 out.old out.new }
    ensures rest_delay { StaysOut 0 128 delay.old delay.new }
    ensures bound { Within (2 ^ 55) 256 delay.new }
{
    for n in 0..128usize {
        let first = part(unfold(sums, n), ac_base::window(n as u16));
        out[n] = sample(first, delay[n]);
        delay[n] = part(unfold(sums, n + 256), ac_base::window(n as u16 + 256));
    }
}

/// The last 128 places of a block: the samples, and what it leaves for the next.
fn upper(sums: &[i64; 256], delay: &mut [i64; 256], out: &mut [i32; 256])
    requires sums { Within (2 ^ 62) 256 sums.now }
    requires delay { Within (2 ^ 55) 256 delay.old }
    ensures sound { IsSoundIn 128 256 sums.now delay.old out.new }
    ensures delay { IsDelayIn 128 256 sums.now delay.new }
    ensures rest { StaysOut 128 256 out.old out.new }
    ensures rest_delay { StaysOut 128 256 delay.old delay.new }
    ensures bound { Within (2 ^ 55) 256 delay.new }
{
    for n in 128..256usize {
        let first = part(unfold(sums, n), ac_base::window(n as u16));
        out[n] = sample(first, delay[n]);
        delay[n] = part(unfold(sums, n + 256), ac_base::window(n as u16 + 256));
    }
}

/// The 256 samples of a block of coefficients and of what the block before left in `delay`, which then
/// holds what this block leaves for the next (A/52 7.9.4.1, steps 1 to 6).
///
/// Samples have 24 bits and are clamped to them; `delay` has the scale 2^23 times that of a sample.
pub fn inverse(coefs: &[i32; 256], delay: &mut [i64; 256], out: &mut [i32; 256])
    requires coefs { Within (2 ^ 24) 256 coefs.now }
    requires delay { Within (2 ^ 55) 256 delay.old }
    ensures sound { IsSound coefs.now delay.old out.new }
    ensures delay { IsDelay coefs.now delay.new }
    ensures bound { Within (2 ^ 55) 256 delay.new }
{
    let mut sums = [0i64; 256];
    inverse_sums(coefs, &mut sums);
    lower(&sums, delay, out);
    upper(&sums, delay, out);
}
