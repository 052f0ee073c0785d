ghost use Rattle.std.specs.Prelude.{◌≡◌, ◌+◌, ◌*◌, ◌%◌, ◌^◌, ◌<◌, ◌≤◌, List, [], ◌++◌, length, take, drop, Bool};
ghost use Rattle.ac_bits.specs.Bits.{frame_bits, bits, bits_of, Appends};

use std::marker::Model;

/// The bytes of the largest frame: 1,920 words of 16 bits (A/52 Table 5.18).
pub const FRAME_BYTES: usize = 3840;

/// The bits of the largest frame.
pub const FRAME_BITS: u32 = 8 * FRAME_BYTES as u32;

/// The bits of one frame, at most 30,720 of them: the 3,840 bytes of the largest frame (A/52 Table 5.18).
///
/// Contracts see it as the list of the bits that were put.
#[derive(Drop)]
pub struct BitSink {
    buf: [u8; FRAME_BYTES],
    full: usize,
    held: u64,
    used: u32,
}

impl Model for BitSink {
    ghost Value = { List Bool };

    ghost view = { λ s. bits_of (take s.full s.buf) ++ bits s.held s.used };

    ghost invariant = { λ s. (8 * s.full + s.used ≤ frame_bits) × (s.used < 8) × (s.held < 2 ^ s.used) };
}

/// Moves whole bytes of `held` into the buffer.
fn flush(
    buf: &mut [u8; FRAME_BYTES],
    mut full: usize,
    mut held: u64,
    mut used: u32,
) -> (usize, u64, u32)
    requires room { 8 * full + used ≤ frame_bits }
    requires small { used < 40 }
    requires fits { held < 2 ^ used }
    ensures same { bits_of (take result.0 buf.new) ++ bits result.1 result.2 ≡ bits_of (take full buf.old) ++ bits held used }
    ensures count { 8 * result.0 + result.2 ≡ 8 * full + used }
    ensures small { result.2 < 8 }
    ensures fits { result.1 < 2 ^ result.2 }
{
    while used >= 8 {
        used -= 8;
        let byte = held >> used;
        buf[full] = byte as u8;
        held -= byte << used;
        full += 1;
    }
    (full, held, used)
}

impl BitSink {
    /// A sink without bits.
    pub fn new() -> BitSink
        ensures { result ≡ [] }
    {
        BitSink {
            buf: [0; FRAME_BYTES],
            full: 0,
            held: 0,
            used: 0,
        }
    }

    /// Appends the `width` bits of `value`, most significant first.
    ///
    /// `value` is below 2^`width`, `width` at most 32, and there is room for them.
    pub fn put(&mut self, value: u32, width: u32)
        requires width { width ≤ 32 }
        requires fits { value < 2 ^ width }
        requires room { length self.old + width ≤ frame_bits }
        ensures bits { Appends self.old self.new (bits value width) }
        ensures len { length self.new ≡ length self.old + width }
    {
        let held = (self.held << width) + value as u64;
        let (full, held, used) = flush(&mut self.buf, self.full, held, self.used + width);
        self.full = full;
        self.held = held;
        self.used = used;
    }

    /// How many bits were put.
    pub fn len(&self) -> u32
        ensures len { result ≡ length self.now }
        ensures bound { length self.now ≤ frame_bits }
    {
        8 * self.full as u32 + self.used
    }

    /// Writes the bits as whole bytes to the front of `out`, and says how many bytes they are.
    ///
    /// The number of bits is a multiple of 8. What stands behind these bytes stays.
    pub fn bytes(&self, out: &mut [u8; FRAME_BYTES]) -> usize
        requires { length self.now % 8 ≡ 0 }
        ensures count { 8 * result ≡ length self.now }
        ensures value { bits_of (take result out.new) ≡ self.now }
        ensures rest { drop result out.new ≡ drop result out.old }
    {
        out[..self.full].copy_from_slice(&self.buf[..self.full]);
        self.full
    }
}
