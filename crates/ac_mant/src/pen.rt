//! Bits on their way into a sink, which are put up to 32 at a time.
ghost use Rattle.std.specs.Prelude.{◌≡◌, ◌+◌, ◌^◌, ◌<◌, ◌≤◌, List, [], ◌++◌, length, Bool};
ghost use Rattle.ac_bits.specs.Bits.{bits, frame_bits, Appends};

use ac_bits::BitSink;
use std::marker::Model;

/// Bits that stand behind those of a sink and aren't put yet, at most 32 of them.
///
/// Contracts see it as the list of these bits.
#[derive(Drop)]
pub struct Pen {
    held: u64,
    used: u32,
}

impl Model for Pen {
    ghost Value = { List Bool };

    ghost view = { λ p. bits p.held p.used };

    ghost invariant = { λ p. (p.used ≤ 32) × (p.held < 2 ^ p.used) };
}

/// Adds `width` bits to those that are held, which are put before where all together are more than 32.
#[inline]
fn gathered(held: u64, used: u32, value: u32, width: u32, sink: &mut BitSink) -> (u64, u32)
    requires width { width ≤ 16 }
    requires value { value < 2 ^ width }
    requires used { used ≤ 32 }
    requires fits { held < 2 ^ used }
    requires room { length sink.old + used ≤ frame_bits }
    ensures same { sink.new ++ bits result.0 result.1 ≡ (sink.old ++ bits held used) ++ bits value width }
    ensures used { result.1 ≤ 32 }
    ensures fits { result.0 < 2 ^ result.1 }
{
    if used + width <= 32 {
        return ((held << width) + u64::from(value), used + width);
    }
    sink.put(held as u32, used);
    (u64::from(value), width)
}

impl Pen {
    /// A pen without bits.
    pub fn new() -> Pen
        ensures { result ≡ [] }
    {
        Pen { held: 0, used: 0 }
    }

    /// Writes the `width` bits of `value`, most significant first; `width` is at most 16.
    #[inline]
    pub fn write(&mut self, value: u32, width: u32, sink: &mut BitSink)
        requires width { width ≤ 16 }
        requires fits { value < 2 ^ width }
        requires room { length sink.old + length self.old ≤ frame_bits }
        ensures { sink.new ++ self.new ≡ (sink.old ++ self.old) ++ bits value width }
    {
        let (held, used) = gathered(self.held, self.used, value, width, sink);
        self.held = held;
        self.used = used;
    }

    /// Puts all that is held.
    pub fn close(&self, sink: &mut BitSink)
        requires room { length sink.old + length self.now ≤ frame_bits }
        ensures bits { Appends sink.old sink.new self.now }
        ensures len { length sink.new ≡ length sink.old + length self.now }
    {
        sink.put(self.held as u32, self.used);
    }
}
