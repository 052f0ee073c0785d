//! The CRC words of a frame (A/52 7.10.1): remainders by x^16 + x^15 + x^2 + 1.
//!
//! A part of a frame is whole where its remainder is 0. Its CRC word stands in front of the
//! part (crc1, [`leading_word`]) or behind it (crc2, [`trailing_word`]).
#![tactic(auto)]

mod table;

ghost use Rattle.std.specs.Prelude.{◌≡◌, ℕ, ◌<◌, ◌^◌, List, ◌++◌, Bool};
ghost use Rattle.ac_bits.specs.Bits.{bits, bits_of};
ghost use Rattle.ac_crc.specs.Remainder.{IsRemainder};

/// The remainder of the bits of `bytes` times x^16, by the generator of A/52 7.10.1.
pub fn remainder(bytes: &[u8]) -> u16
    ensures is_remainder { IsRemainder (bits_of bytes.now) result }
    ensures only { (r : ℕ) → IsRemainder (bits_of bytes.now) r → r ≡ result }
{
    let mut register = 0u16;
    let mut at = 0;
    'fours: while bytes.len() - at >= 4 {
        register = enter_four(
            register,
            bytes[at],
            bytes[at + 1],
            bytes[at + 2],
            bytes[at + 3],
        );
        at += 4;
    }
    'ones: while at < bytes.len() {
        register = enter(register, bytes[at]);
        at += 1;
    }
    register
}

/// Four bytes more behind.
fn enter_four(register: u16, a: u8, b: u8, c: u8, d: u8) -> u16
    ensures { (l : List Bool) → IsRemainder l register → IsRemainder (l ++ (bits a 8 ++ (bits b 8 ++ (bits c 8 ++ bits d 8)))) result }
{
    table::remainder_of_four((register >> 8) as u8 ^ a, (register % 256) as u8 ^ b, c, d)
}

/// One byte more behind.
fn enter(register: u16, byte: u8) -> u16
    ensures { (l : List Bool) → IsRemainder l register → IsRemainder (l ++ bits byte 8) result }
{
    ((register % 256) << 8) ^ table::remainder_of((register >> 8) as u8 ^ byte)
}

/// The one word that leaves remainder 0 behind the bits of `bytes` (crc2, A/52 7.10.1).
pub fn trailing_word(bytes: &[u8]) -> u16
    ensures none_left { IsRemainder (bits_of bytes.now ++ bits result 16) 0 }
    ensures only { (u : ℕ) → u < 2 ^ 16 → IsRemainder (bits_of bytes.now ++ bits u 16) 0 → u ≡ result }
{
    remainder(bytes)
}

/// The one word that leaves remainder 0 in front of the bits of `bytes` (crc1, A/52 7.10.1).
pub fn leading_word(bytes: &[u8]) -> u16
    ensures none_left { IsRemainder (bits result 16 ++ bits_of bytes.now) 0 }
    ensures only { (u : ℕ) → u < 2 ^ 16 → IsRemainder (bits u 16 ++ bits_of bytes.now) 0 → u ≡ result }
{
    let mut word = 0u16;
    let mut at = bytes.len();
    while at > 0 {
        at -= 1;
        word = enter_front(word, bytes[at]);
    }
    word
}

/// One byte more in front.
fn enter_front(word: u16, byte: u8) -> u16
    ensures { (l : List Bool) → IsRemainder (bits word 16 ++ l) 0 → IsRemainder (bits result 16 ++ (bits byte 8 ++ l)) 0 }
{
    (word >> 8) ^ table::leading((word % 256) as u8 ^ byte)
}

#[cfg(test)]
mod tests {
    use super::*;

    // The expected words are those of a division bit by bit in Python.
    #[test]
    fn crc_numbers(rt: HostRuntime) {
        assert_eq!(rt; remainder(b"123456789"), 0xfee8);
        assert_eq!(rt; remainder(&[1]), 0x8005);
        assert_eq!(rt; trailing_word(&[1]), 0x8005);
        assert_eq!(rt; leading_word(&[0x80, 0x05]), 1);
    }
}
