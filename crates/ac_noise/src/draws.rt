//! The numbers drawn.
ghost use Rattle.std.specs.Prelude.{◌≡◌, ◌/◌, ◌^◌, ◌≤◌, unsigned_abs};
ghost use Rattle.byteorder.specs.Endian.{twos_complement};
ghost use Rattle.ac_noise.specs.Noise.{next_of};

/// The state behind this one.
#[inline]
pub(crate) fn next(x: u64) -> u64
    ensures { result ≡ next_of x }
{
    x.wrapping_mul(6_364_136_223_846_793_005)
        .wrapping_add(1_442_695_040_888_963_407)
}

/// The top 16 bits of a state, as a signed number.
#[inline]
pub(crate) fn top(x: u64) -> i32
    ensures value { result ≡ twos_complement 2 (x / 2 ^ 48) }
    ensures bound { unsigned_abs result ≤ 2 ^ 15 }
{
    let top = (x >> 48) as i32;
    if top < 32_768 { top } else { top - 65_536 }
}
