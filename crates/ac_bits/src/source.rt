ghost use Rattle.std.specs.Prelude.{◌≡◌, ◌+◌, ◌-◌, ◌*◌, ◌^◌, ◌<◌, ◌≤◌, List, ◌++◌, length, take, drop, Bool, IfOk, OnErr};
ghost use Rattle.ac_bits.specs.Bits.{bits, bits_of};

use std::marker::Model;

/// Fewer bits are left than were asked for: the refusal of [`BitSource::take`].
#[derive(Clone, Copy, Debug, PartialEq, Eq)]
pub struct OutOfBits;

/// The bits at the front of a slice of bytes that are still to come.
///
/// Contracts see it as the list of these bits.
#[derive(Drop)]
pub struct BitSource<'a> {
    bytes: &'a [u8],
    at: usize,
    held: u64,
    have: u32,
    left: u32,
}

impl<'a> Model for BitSource<'a> {
    ghost Value = { List Bool };

    ghost view = { λ s. take s.left (bits s.held s.have ++ bits_of (drop s.at s.bytes.now)) };

    ghost invariant = { λ s. (s.at ≤ length s.bytes.now) × (s.have < 8) × (s.held < 2 ^ s.have)
        × (s.left ≤ s.have + 8 * (length s.bytes.now - s.at)) };
}

/// Takes bytes in until `width` bits are held.
fn fill(bytes: &[u8], mut at: usize, mut held: u64, mut have: u32, width: u32) -> (usize, u64, u32)
    requires at { at ≤ length bytes.now }
    requires have { have < 8 }
    requires width { width ≤ 32 }
    requires fits { held < 2 ^ have }
    requires enough { width ≤ have + 8 * (length bytes.now - at) }
    ensures same { bits result.1 result.2 ++ bits_of (drop result.0 bytes.now) ≡ bits held have ++ bits_of (drop at bytes.now) }
    ensures at { result.0 ≤ length bytes.now }
    ensures count { result.2 + 8 * (length bytes.now - result.0) ≡ have + 8 * (length bytes.now - at) }
    ensures enough { width ≤ result.2 }
    ensures small { result.2 < width + 8 }
    ensures fits { result.1 < 2 ^ result.2 }
{
    while have < width {
        held = (held << 8) + bytes[at] as u64;
        have += 8;
        at += 1;
    }
    (at, held, have)
}

impl<'a> BitSource<'a> {
    /// The first `bits` bits of `bytes`, which has at least as many.
    pub fn new(bytes: &'a [u8], bits: u32) -> BitSource<'a>
        requires { bits ≤ 8 * length bytes.now }
        ensures { result ≡ take bits (bits_of bytes.now) }
    {
        BitSource {
            bytes,
            at: 0,
            held: 0,
            have: 0,
            left: bits,
        }
    }

    /// The number that the next `width` bits spell, most significant first; `width` is at most 32.
    ///
    /// # Errors
    ///
    /// `OutOfBits` exactly where fewer than `width` bits are left. Then nothing is taken.
    pub fn take(&mut self, width: u32) -> Result<u32, OutOfBits>
        requires { width ≤ 32 }
        ensures taken { IfOk result (λ v. (v < 2 ^ width) × (self.old ≡ bits v width ++ self.new)) }
        ensures out { OnErr result ((length self.old < width) × (self.new ≡ self.old)) }
    {
        if self.left < width {
            return Err(OutOfBits);
        }
        let (at, held, have) = fill(self.bytes, self.at, self.held, self.have, width);
        let have = have - width;
        let value = held >> have;
        self.at = at;
        self.held = held - (value << have);
        self.have = have;
        self.left -= width;
        Ok(value as u32)
    }

    /// A second source of the same bits, by which a reader can stand again where a field began.
    pub fn copy(&self) -> BitSource<'a>
        ensures { result ≡ self.now }
    {
        BitSource {
            bytes: self.bytes,
            at: self.at,
            held: self.held,
            have: self.have,
            left: self.left,
        }
    }

    /// How many bits are still to come.
    pub fn left(&self) -> u32
        ensures { result ≡ length self.now }
    {
        self.left
    }
}
