//! Raw exponents of coefficients.
ghost use Rattle.std.specs.Prelude.{◌≡◌, ℕ, ◌*◌, ◌^◌, ◌<◌, ◌≤◌, unsigned_abs};
ghost use Rattle.ac_expo.specs.Raw.{raw_of};

/// The raw exponent of a coefficient of scale 2^24: the greatest e from 0 to 24 with `|c| * 2^e < 2^24`.
pub fn raw_exponent(c: i32) -> u8
    requires { unsigned_abs c < 2 ^ 24 }
    ensures value { result ≡ raw_of c }
    ensures bound { result ≤ 24 }
    ensures fits { unsigned_abs c * 2 ^ result < 2 ^ 24 }
    ensures greatest { (e : ℕ) → e ≤ 24 → unsigned_abs c * 2 ^ e < 2 ^ 24 → e ≤ result }
{
    (c.unsigned_abs().leading_zeros() - 8) as u8
}

#[cfg(test)]
mod tests;
