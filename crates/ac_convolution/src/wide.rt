//! Sums of 64 bits.
ghost use Rattle.std.specs.Prelude.{◌≡◌, ◌≤◌, ◌^◌, ◌+◌, ◌+ℤ◌, ◌-ℤ◌, neg_ℤ, unsigned_abs};

/// `a + b`, without overflow.
#[inline]
pub fn sum(a: i64, b: i64) -> i64
    requires left { unsigned_abs a ≤ 2 ^ 60 }
    requires right { unsigned_abs b ≤ 2 ^ 60 }
    ensures value { result ≡ a +ℤ b }
    ensures bound { unsigned_abs result ≤ unsigned_abs a + unsigned_abs b }
{
    a + b
}

/// `a - b`, without overflow.
#[inline]
pub fn difference(a: i64, b: i64) -> i64
    requires left { unsigned_abs a ≤ 2 ^ 60 }
    requires right { unsigned_abs b ≤ 2 ^ 60 }
    ensures value { result ≡ a -ℤ b }
    ensures bound { unsigned_abs result ≤ unsigned_abs a + unsigned_abs b }
{
    a - b
}

/// `-z`.
#[inline]
pub fn opposite(z: i64) -> i64
    requires { unsigned_abs z ≤ 2 ^ 60 }
    ensures value { result ≡ neg_ℤ z }
    ensures bound { unsigned_abs result ≤ unsigned_abs z }
{
    -z
}
