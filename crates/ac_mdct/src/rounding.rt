//! Each rounding of the transforms, on plain numbers (this project's profile for the real numbers of A/52 7.9.4.1, 8.2.3).
ghost use Rattle.std.specs.Prelude.{◌≡◌, ◌<◌, ◌≤◌, ◌^◌, ◌+◌, ◌*◌, ◌+ℤ◌, ◌*ℤ◌, ℤ, pos, neg_ℤ, unsigned_abs};
ghost use Rattle.ac_base.specs.Floor.{floor_div};
ghost use Rattle.ac_mdct.specs.Forward.{rounded, coefficient};
ghost use Rattle.ac_mdct.specs.Inverse.{part_of, sample_of};

/// The greatest magnitude of a coefficient, of scale 2^24.
const MOST: i64 = (1 << 24) - 1;

/// The least and the greatest sample of 24 bits.
const LEAST_SAMPLE: i64 = -(1 << 23);

const GREATEST_SAMPLE: i64 = (1 << 23) - 1;

/// Half a unit of a windowed sample, of a coefficient, of a part and of a sample, as their sums have it.
const HALF_WINDOWED: i64 = 1 << 14;

const HALF_COEFFICIENT: i64 = 1 << 36;

const HALF_PART: i64 = 1 << 21;

const HALF_SAMPLE: i64 = 1 << 22;

/// `a * b`, without overflow.
#[inline]
fn product(a: i64, b: i64) -> i64
    requires left { unsigned_abs a ≤ 2 ^ 40 }
    requires right { unsigned_abs b ≤ 2 ^ 15 }
    ensures value { result ≡ a *ℤ b }
    ensures bound { unsigned_abs result ≤ 2 ^ 55 }
{
    a * b
}

/// A sample of 24 bits under its window of scale 2^15, rounded (A/52 8.2.3.1).
#[inline]
#[tactic(auto, unfolding(crate::specs::Forward::rounded))]
pub fn weigh(x: i32, w: i32) -> i32
    requires sample { unsigned_abs x ≤ 2 ^ 23 }
    requires window { unsigned_abs w ≤ 2 ^ 15 }
    ensures value { result ≡ rounded x w }
    ensures bound { unsigned_abs result ≤ 2 ^ 23 }
{
    let p = narrow_product(x, w);
    ((p + HALF_WINDOWED) >> 15) as i32
}

/// `a * b`, without overflow.
#[inline]
fn narrow_product(a: i32, b: i32) -> i64
    requires left { unsigned_abs a ≤ 2 ^ 23 }
    requires right { unsigned_abs b ≤ 2 ^ 15 }
    ensures value { result ≡ a *ℤ b }
    ensures bound { unsigned_abs result ≤ 2 ^ 38 }
{
    i64::from(a) * i64::from(b)
}

/// The coefficient of a sum of at most 2^62 in magnitude, of scale 2^24, rounded once and clamped to less than one (A/52 8.2.3.2).
#[inline]
#[tactic(auto, unfolding(crate::specs::Forward::coefficient))]
pub fn coefficient_of(s: i64) -> i32
    requires { unsigned_abs s ≤ 2 ^ 62 }
    ensures { result ≡ coefficient s }
{
    ((HALF_COEFFICIENT - s) >> 37).clamp(-MOST, MOST) as i32
}

/// A sum of the inverse transform, of at most 2^62 in magnitude, rounded to at most 2^40.
#[inline]
fn unweighed(t: i64) -> i64
    requires { unsigned_abs t ≤ 2 ^ 62 }
    ensures value { result ≡ floor_div (neg_ℤ t +ℤ pos (2 ^ 21)) (2 ^ 22) }
    ensures bound { unsigned_abs result ≤ 2 ^ 40 }
{
    (HALF_PART - t) >> 22
}

/// The part of a sample that a block gives: its rounded sum under the window of scale 2^15, of at most 2^55 in magnitude
/// (A/52 7.9.4.1, step 5).
#[inline]
#[tactic(auto, unfolding(crate::specs::Inverse::part_of))]
pub fn part(t: i64, w: i32) -> i64
    requires sum { unsigned_abs t ≤ 2 ^ 62 }
    requires window { unsigned_abs w ≤ 2 ^ 15 }
    ensures value { result ≡ part_of t w }
    ensures bound { unsigned_abs result ≤ 2 ^ 55 }
{
    product(unweighed(t), i64::from(w))
}

/// Both parts of a sample together, rounded to its scale (A/52 7.9.4.1, step 6).
#[inline]
fn overlapped(p: i64, d: i64) -> i64
    requires part { unsigned_abs p ≤ 2 ^ 55 }
    requires delay { unsigned_abs d ≤ 2 ^ 55 }
    ensures { result ≡ floor_div ((p +ℤ d) +ℤ pos (2 ^ 22)) (2 ^ 23) }
{
    (p + d + HALF_SAMPLE) >> 23
}

/// The sample of its two parts, clamped to 24 bits (A/52 7.9.4.1, step 6).
#[inline]
#[tactic(auto, unfolding(crate::specs::Inverse::sample_of))]
pub fn sample(p: i64, d: i64) -> i32
    requires part { unsigned_abs p ≤ 2 ^ 55 }
    requires delay { unsigned_abs d ≤ 2 ^ 55 }
    ensures { result ≡ sample_of p d }
{
    overlapped(p, d).clamp(LEAST_SAMPLE, GREATEST_SAMPLE) as i32
}
