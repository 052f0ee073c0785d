//! The quantiser and its inverse (A/52 7.3.3, 7.3.4).
ghost use Rattle.std.specs.Prelude.{◌≡◌, ◌<◌, ◌≤◌, ◌+◌, ◌-◌, ◌*◌, ◌^◌, ℤ, pos, ◌+ℤ◌, ◌*ℤ◌, ◌≤ℤ◌, ◌<ℤ◌, unsigned_abs};
ghost use Rattle.ac_base.specs.Floor.{floor_div};
ghost use Rattle.ac_mant.specs.Quantiser.{levels, width, IsCode, normalised, level_of, nearest, complement, code_of, signed, middle, multiple, value_of};

/// The levels of the symmetric quantisers, by pointer (A/52 Table 7.17).
const LEVELS: [u8; 6] = [1, 3, 5, 7, 11, 15];

/// The bits of the asymmetric quantisers, by pointer (A/52 Table 7.17).
const WIDTHS: [u8; 16] = [0, 0, 0, 0, 0, 0, 5, 6, 7, 8, 9, 10, 11, 12, 14, 16];

/// One, in the scale of coefficients.
const ONE: i64 = 1 << 24;

/// The levels of a pointer up to 5.
#[inline]
#[tactic(auto, unfolding(crate::specs::Quantiser::levels))]
fn level_entry(bap: u8) -> u8
    requires { bap ≤ 5 }
    ensures { result ≡ levels bap }
{
    LEVELS[bap as usize]
}

/// The same, with its bounds.
#[inline]
#[tactic(auto, using(crate::proofs::Pointers::levels_least, crate::proofs::Pointers::levels_most))]
fn levels_of(bap: u8) -> u8
    requires { bap ≤ 5 }
    ensures value { result ≡ levels bap }
    ensures least { 1 ≤ result }
    ensures most { result ≤ 15 }
{
    level_entry(bap)
}

/// The bits of a pointer from 6 to 15.
#[inline]
#[tactic(auto, unfolding(crate::specs::Quantiser::width))]
fn width_entry(bap: u8) -> u8
    requires { bap ≤ 15 }
    ensures { result ≡ width bap }
{
    WIDTHS[bap as usize]
}

/// The same, with its bounds.
#[inline]
#[tactic(auto, using(crate::proofs::Pointers::width_least, crate::proofs::Pointers::width_most))]
fn width_of(bap: u8) -> u8
    requires least { 6 ≤ bap }
    requires most { bap ≤ 15 }
    ensures value { result ≡ width bap }
    ensures least { 5 ≤ result }
    ensures most { result ≤ 16 }
{
    width_entry(bap)
}

/// 2^`k`.
#[inline]
fn power(k: u8) -> i64
    requires { k ≤ 24 }
    ensures value { result ≡ pos (2 ^ k) }
    ensures bound { 2 ^ k ≤ 2 ^ 24 }
{
    1 << k
}

/// `a + b`, without overflow.
#[inline]
fn sum(a: i64, b: i64) -> i64
    requires left { unsigned_abs a ≤ 2 ^ 24 }
    requires right { unsigned_abs b ≤ 2 ^ 24 }
    ensures { result ≡ a +ℤ b }
{
    a + b
}

/// `a * b`, without overflow.
#[inline]
fn product(a: i64, b: i64) -> i64
    requires left { unsigned_abs a ≤ 2 ^ 25 }
    requires right { unsigned_abs b ≤ 2 ^ 24 }
    ensures { result ≡ a *ℤ b }
{
    a * b
}

/// `z` over 2^`k`, rounded downwards.
#[inline]
fn shifted(z: i64, k: u8) -> i64
    requires { k ≤ 25 }
    ensures { result ≡ floor_div z (2 ^ k) }
{
    z >> k
}

/// `c` times 2^`e`.
#[inline]
fn scaled(c: i32, e: u8) -> i64
    requires exponent { e ≤ 24 }
    requires bound { unsigned_abs c * 2 ^ e < 2 ^ 24 }
    ensures value { result ≡ normalised c e }
    ensures bound { unsigned_abs result < 2 ^ 24 }
{
    i64::from(c) * power(e)
}

/// Which of `levels` levels stands around `z`, as a whole number.
#[inline]
fn level_around(z: i64, levels: u8) -> i64
    requires bound { unsigned_abs z < 2 ^ 24 }
    requires levels { levels ≤ 15 }
    ensures { result ≡ floor_div ((z +ℤ pos (2 ^ 24)) *ℤ pos levels) (2 ^ 25) }
{
    shifted(product(sum(z, ONE), i64::from(levels)), 25)
}

/// The same as a code.
#[inline]
#[tactic(auto, unfolding(crate::specs::Quantiser::level_of))]
fn level(z: i64, levels: u8) -> u16
    requires bound { unsigned_abs z < 2 ^ 24 }
    requires least { 1 ≤ levels }
    requires levels { levels ≤ 15 }
    ensures value { result ≡ level_of levels z }
    ensures bound { result < levels }
{
    level_around(z, levels) as u16
}

/// The nearest multiple of the step of so many bits, as a whole number of steps.
#[inline]
fn steps_near(z: i64, width: u8) -> i64
    requires bound { unsigned_abs z < 2 ^ 24 }
    requires least { 5 ≤ width }
    requires most { width ≤ 16 }
    ensures { result ≡ floor_div (z +ℤ pos (2 ^ (24 - width))) (2 ^ (25 - width)) }
{
    shifted(sum(z, i64::from(power(24 - width))), 25 - width)
}

/// The same, at most the greatest of so many bits.
#[inline]
#[tactic(auto, unfolding(crate::specs::Quantiser::nearest))]
fn steps_capped(z: i64, width: u8) -> i64
    requires bound { unsigned_abs z < 2 ^ 24 }
    requires least { 5 ≤ width }
    requires most { width ≤ 16 }
    ensures { result ≡ nearest width z }
{
    steps_near(z, width).min(i64::from(power(width - 1) - 1))
}

/// The same, with its bounds.
#[inline]
#[tactic(auto, using(crate::proofs::Rounding::nearest_low, crate::proofs::Rounding::nearest_high))]
fn steps(z: i64, width: u8) -> i64
    requires bound { unsigned_abs z < 2 ^ 24 }
    requires least { 5 ≤ width }
    requires most { width ≤ 16 }
    ensures value { result ≡ nearest width z }
    ensures low { pos 0 ≤ℤ (result +ℤ pos (2 ^ (width - 1))) }
    ensures high { result ≤ℤ pos (2 ^ (width - 1) - 1) }
{
    steps_capped(z, width)
}

/// `q` raised by 2^`width`, from below 0.
#[inline]
#[tactic(auto, using(crate::proofs::Rounding::complement_raised))]
fn raised(q: i64, width: u8) -> i64
    requires least { 5 ≤ width }
    requires most { width ≤ 16 }
    requires low { pos 0 ≤ℤ (q +ℤ pos (2 ^ (width - 1))) }
    requires negative { q <ℤ pos 0 }
    ensures { result ≡ pos (complement width q) }
{
    sum(q, i64::from(power(width)))
}

/// A number in two's complement, as a whole number.
#[inline]
#[tactic(auto, using(crate::proofs::Rounding::complement_kept))]
fn complement_of(q: i64, width: u8) -> i64
    requires least { 5 ≤ width }
    requires most { width ≤ 16 }
    requires low { pos 0 ≤ℤ (q +ℤ pos (2 ^ (width - 1))) }
    ensures { result ≡ pos (complement width q) }
{
    if q < 0 { raised(q, width) } else { q }
}

/// The same as a code.
#[inline]
#[tactic(auto, using(crate::proofs::Rounding::complement_low, crate::proofs::Rounding::complement_fits))]
fn complemented(q: i64, width: u8) -> u16
    requires least { 5 ≤ width }
    requires most { width ≤ 16 }
    requires low { pos 0 ≤ℤ (q +ℤ pos (2 ^ (width - 1))) }
    requires high { q ≤ℤ pos (2 ^ (width - 1) - 1) }
    ensures value { result ≡ complement width q }
    ensures bound { result < 2 ^ width }
{
    complement_of(q, width) as u16
}

/// The code of a coefficient `c` of scale 2^24, by its exponent and its bit allocation pointer (A/52 7.3.3, 7.3.4).
///
/// `c` times 2^`e` is less than one in magnitude; `e` is at most 24 and `bap` at most 15. The code of pointer 0 is 0, and no
/// bit of it is sent.
pub fn quantise(c: i32, e: u8, bap: u8) -> u16
    requires exponent { e ≤ 24 }
    requires pointer { bap ≤ 15 }
    requires bound { unsigned_abs c * 2 ^ e < 2 ^ 24 }
    ensures value { result ≡ code_of c e bap }
    ensures code { IsCode bap result }
{
    let z = scaled(c, e);
    if bap <= 5 {
        return level(z, levels_of(bap));
    }
    let width = width_of(bap);
    complemented(steps(z, width), width)
}

/// The number that a code of so many bits stands for.
#[inline]
#[tactic(auto, unfolding(crate::specs::Quantiser::signed))]
fn signed_of(code: u16, width: u8) -> i64
    requires least { 5 ≤ width }
    requires most { width ≤ 16 }
    ensures { result ≡ signed width code }
{
    let q = i64::from(code);
    if q < i64::from(power(width - 1)) {
        q
    } else {
        q - i64::from(power(width))
    }
}

/// The number that a code of so many bits stands for, with its bound.
#[inline]
#[tactic(auto, using(crate::proofs::Rounding::signed_within))]
fn signed_code(code: u16, width: u8) -> i64
    requires least { 5 ≤ width }
    requires most { width ≤ 16 }
    requires code { code < 2 ^ width }
    ensures value { result ≡ signed width code }
    ensures bound { unsigned_abs result ≤ 2 ^ (width - 1) }
{
    signed_of(code, width)
}

/// A multiple of the step of so many bits.
#[inline]
fn step_times(code: u16, width: u8) -> i64
    requires least { 5 ≤ width }
    requires most { width ≤ 16 }
    requires code { code < 2 ^ width }
    ensures { result ≡ signed width code *ℤ pos (2 ^ (25 - width)) }
{
    product(signed_code(code, width), i64::from(power(25 - width)))
}

/// The same over 2^`e`.
#[inline]
#[tactic(auto, unfolding(crate::specs::Quantiser::multiple))]
fn multiple_of(code: u16, width: u8, e: u8) -> i64
    requires exponent { e ≤ 24 }
    requires least { 5 ≤ width }
    requires most { width ≤ 16 }
    requires code { code < 2 ^ width }
    ensures { result ≡ multiple width code e }
{
    shifted(step_times(code, width), e)
}

/// The middles of the levels of pointers 0 to 5, 16 places for each, of scale 2^24 (A/52 Tables 7.19 to 7.23).
static MIDDLES: [i32; 96] = [
    0, 0, 0, 0, 0, 0, 0, 0, 0, 0, 0, 0, 0, 0, 0, 0, -11184811, 0, 11184810, 0, 0, 0, 0, 0, 0, 0, 0,
    0, 0, 0, 0, 0, -13421773, -6710887, 0, 6710886, 13421772, 0, 0, 0, 0, 0, 0, 0, 0, 0, 0, 0,
    -14380471, -9586981, -4793491, 0, 4793490, 9586980, 14380470, 0, 0, 0, 0, 0, 0, 0, 0, 0,
    -15252015, -12201612, -9151209, -6100806, -3050403, 0, 3050402, 6100805, 9151208, 12201611,
    15252014, 0, 0, 0, 0, 0, -15658735, -13421773, -11184811, -8947849, -6710887, -4473925,
    -2236963, 0, 2236962, 4473924, 6710886, 8947848, 11184810, 13421772, 15658734, 0,
];

/// The middle of a level, of scale 2^24.
#[inline]
fn middle_entry(code: u16, bap: u8) -> i32
    requires pointer { bap ≤ 5 }
    requires code { code < levels bap }
    requires small { code ≤ 14 }
    ensures { result ≡ middle (levels bap) code 0 }
{
    MIDDLES[16 * bap as usize + code as usize]
}

/// The middle of a level over 2^`e`.
#[inline]
fn middle_of(code: u16, bap: u8, e: u8) -> i64
    requires pointer { bap ≤ 5 }
    requires code { code < levels bap }
    requires exponent { e ≤ 24 }
    ensures { result ≡ middle (levels bap) code e }
{
    shifted(i64::from(middle_entry(code, bap)), e)
}

/// The value of a code, as a whole number.
#[inline]
fn value_at(code: u16, bap: u8, e: u8) -> i64
    requires pointer { bap ≤ 15 }
    requires code { IsCode bap code }
    requires exponent { e ≤ 24 }
    ensures { result ≡ value_of code bap e }
{
    if bap <= 5 {
        middle_of(code, bap, e)
    } else {
        multiple_of(code, width_of(bap), e)
    }
}

/// The value that a code stands for by its bit allocation pointer and its exponent, of scale 2^24 (A/52 7.3.3, 7.3.4): the
/// middle of a level, or a multiple of the step; 0 for pointer 0.
///
/// `code` is one of pointer `bap`, which is at most 15; `e` is at most 24.
#[tactic(auto, using(crate::proofs::Values::value_within))]
pub fn value(code: u16, bap: u8, e: u8) -> i32
    requires pointer { bap ≤ 15 }
    requires code { IsCode bap code }
    requires exponent { e ≤ 24 }
    ensures value { result ≡ value_of code bap e }
    ensures bound { unsigned_abs result ≤ 2 ^ 24 }
{
    value_at(code, bap, e) as i32
}
