//! Bits of a source that are taken 32 at a time.
ghost use Rattle.std.specs.Prelude.{◌≡◌, ◌+◌, ◌-◌, ◌%◌, ◌/◌, ◌^◌, ◌<◌, ◌≤◌, List, ◌++◌, length, drop, Bool, IfOk, OnErr};
ghost use Rattle.ac_bits.specs.Bits.{bits};

use ac_bits::{BitSource, OutOfBits};
use std::marker::Model;

/// The bits that a source has left, of which some are taken ahead. The source itself stays where it is.
///
/// Contracts see it as the list of these bits.
#[derive(Drop)]
pub struct Window<'a> {
    source: BitSource<'a>,
    held: u64,
    have: u32,
}

impl<'a> Model for Window<'a> {
    ghost Value = { List Bool };

    ghost view = { λ w. bits w.held w.have ++ w.source };

    ghost invariant = { λ w. (w.have < 48) × (w.held < 2 ^ w.have) };
}

/// Takes 32 bits ahead, or all that are left, where fewer than `width` are held.
#[inline]
fn ready(source: &mut BitSource, held: u64, have: u32, width: u32) -> (u64, u32)
    requires width { width ≤ 16 }
    requires have { have < 48 }
    requires fits { held < 2 ^ have }
    ensures same { bits result.0 result.1 ++ source.new ≡ bits held have ++ source.old }
    ensures enough { result.1 < width → have + length source.old < width }
    ensures have { result.1 < 48 }
    ensures fits { result.0 < 2 ^ result.1 }
{
    if have < width {
        ahead(source, held, have)
    } else {
        (held, have)
    }
}

/// Takes 32 bits ahead, or all that are left.
fn ahead(source: &mut BitSource, held: u64, have: u32) -> (u64, u32)
    requires have { have < 16 }
    requires fits { held < 2 ^ have }
    ensures same { bits result.0 result.1 ++ source.new ≡ bits held have ++ source.old }
    ensures enough { result.1 < 16 → result.1 ≡ have + length source.old }
    ensures have { result.1 < 48 }
    ensures fits { result.0 < 2 ^ result.1 }
{
    let count = source.left().min(32);
    match source.take(count) {
        Ok(word) => ((held << count) + u64::from(word), have + count),
        Err(_) => (held, have),
    }
}

impl<'a> Window<'a> {
    /// The bits that are left.
    pub fn of(source: &BitSource<'a>) -> Window<'a>
        ensures { result ≡ source.now }
    {
        Window {
            source: source.copy(),
            held: 0,
            have: 0,
        }
    }

    /// The number that the next `width` bits spell, most significant first; `width` is at most 16.
    ///
    /// # Errors
    ///
    /// `OutOfBits` exactly where fewer than `width` bits are left. Then nothing is taken.
    #[inline]
    pub fn take(&mut self, width: u32) -> Result<u32, OutOfBits>
        requires { width ≤ 16 }
        ensures taken { IfOk result (λ v. (v < 2 ^ width) × (self.old ≡ bits v width ++ self.new)) }
        ensures out { OnErr result ((length self.old < width) × (self.new ≡ self.old)) }
    {
        let (held, have) = ready(&mut self.source, self.held, self.have, width);
        if have < width {
            self.held = held;
            self.have = have;
            return Err(OutOfBits);
        }
        let have = have - width;
        let value = held >> have;
        self.held = held - (value << have);
        self.have = have;
        Ok(value as u32)
    }

    /// How many bits are still to come.
    pub fn left(&self) -> usize
        ensures { result ≡ length self.now }
    {
        self.have as usize + self.source.left() as usize
    }
}

/// Passes over so many bits.
fn pass(source: &mut BitSource, width: u32)
    requires width { width ≤ 32 }
    requires there { width ≤ length source.old }
    ensures { source.new ≡ drop width source.old }
{
    match source.take(width) {
        Ok(_) => {}
        Err(_) => {}
    }
}

/// Passes over any number of bits that are left.
pub fn skip(source: &mut BitSource, count: usize)
    requires { count ≤ length source.old }
    ensures { source.new ≡ drop count source.old }
{
    for _turn in 0..count / 32 {
        pass(source, 32);
    }
    pass(source, (count % 32) as u32);
}
