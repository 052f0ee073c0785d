//! Where the bits go that the fields of a frame leave over (A/52 5.4.3.58 to 5.4.3.60, 5.4.4.1).
ghost use Rattle.std.specs.Prelude.{◌≡◌, ◌≤◌, ◌==◌, if◌then◌else◌, None};
ghost use Rattle.ac_sent.specs.Padding.{to_skip, skip};

use ac_base::{TAIL_BITS, front_words};

/// The bits of the largest skip field behind skiple: 9 of skipl and 511 bytes (A/52 5.4.3.59).
const LARGEST: u32 = 4097;

/// How many bits the skip fields have to take in a frame whose fields have `total` bits, and the mantissas of block 5 `last`:
/// what is left goes into aux bits as far as the second CRC part has room.
pub fn bits_to_skip(words: u16, total: u32, last: u32) -> u32
    requires { words ≤ 1920 }
    ensures { result ≡ to_skip words total last }
{
    let all = 16 * u32::from(words);
    let front = 16 * u32::from(front_words(words));
    let left = all.saturating_sub(total);
    let room = (all - front).saturating_sub(last).saturating_sub(TAIL_BITS);
    left.saturating_sub(room)
}

/// The skipl of a block where the skip fields take `x` bits in all, the last blocks first.
#[tactic(auto, unfolding(ac_sent::specs::Padding::skip, ac_sent::specs::Padding::skipl_of))]
fn skipl(x: u32, block: u32) -> Option<u16>
    requires { block ≤ 5 }
    ensures { result ≡ skip x block }
{
    let here = x.saturating_sub(LARGEST * (5 - block));
    if here == 0 {
        return None;
    }
    let least = (here.saturating_sub(9) + 7) / 8;
    Some(least.min(511) as u16)
}

/// The skipl of block `b`: block 0 has none.
pub fn skipl_of(x: u32, b: u32) -> Option<u16>
    requires { b ≤ 5 }
    ensures { result ≡ if b == 0 then None else skip x b }
{
    if b == 0 { None } else { skipl(x, b) }
}
