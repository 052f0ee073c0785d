//! Numbers in decimal digits.
ghost use Rattle.std.specs.Prelude.{◌≡◌, ◌+◌, ◌-◌, ◌*◌, ◌^◌, ◌<◌, ◌≤◌, Option, Some, None, if◌then◌else◌, option_map, IfSome};
ghost use Rattle.ac_cert_text.specs.Codec.{fits, digits, number_of};
ghost use Rattle.ac_cert_text.specs.Views.{value_and_rest};

/// The number of these digits and one more, where this byte is one and the number is below the limit.
fn with_digit(limit: u64, n: u64, byte: u8) -> Option<u64>
    requires limit { limit ≤ 2 ^ 32 }
    requires bound { n ≤ limit }
    ensures value { result ≡ (if fits limit n byte then Some (10 * n + (byte - 48)) else None) }
    ensures bound { IfSome result (λ m. m < limit) }
{
    if !byte.is_ascii_digit() {
        return None;
    }
    let next = 10 * n + u64::from(byte - b'0');
    if next < limit { Some(next) } else { None }
}

/// Further digits of a number, and the rest behind the byte that ends it.
fn digits(bytes: &[u8], limit: u64, end: u8, first: u64) -> Option<(u64, &[u8])>
    requires limit { limit ≤ 2 ^ 32 }
    requires bound { first < limit }
    ensures value { option_map value_and_rest result ≡ digits limit end first bytes.now }
    ensures bound { IfSome result (λ x. x.0 < limit) }
{
    let mut n = first;
    let mut rest = bytes;
    while let Some((byte, behind)) = rest.split_first() {
        if *byte == end {
            return Some((n, behind));
        }
        if n == 0 {
            return None;
        }
        n = with_digit(limit, n, *byte)?;
        rest = behind;
    }
    None
}

/// The number at the front, which is below the limit, and the rest behind the byte that ends it.
pub fn number_of(bytes: &[u8], limit: u64, end: u8) -> Option<(u64, &[u8])>
    requires limit { limit ≤ 2 ^ 32 }
    ensures value { option_map value_and_rest result ≡ number_of limit end bytes.now }
    ensures bound { IfSome result (λ x. x.0 < limit) }
{
    let (byte, rest) = bytes.split_first()?;
    let first = with_digit(limit, 0, *byte)?;
    digits(rest, limit, end, first)
}
