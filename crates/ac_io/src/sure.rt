ghost use Rattle.std.specs.Prelude.{◌≡◌, ℕ, ◌<◌, ◌≤◌, ◌++◌, length, take, drop, min, Some, None, IfOk, IsOk};
ghost use Rattle.ac_io.specs.Outside.{ReadsFront, IsAtEnd};

use crate::memory::copy_front;
use crate::outside::{Failed, Sink, Source};
use std::marker::Model;

/// Bytes in memory that are read without fail.
#[derive(Drop)]
pub struct SureSource {
    bytes: Vec<u8>,
    at: usize,
}

impl Model for SureSource {
    ghost use Rattle.std.specs.Prelude.{◌≤◌, ℕ, List, drop, vec_len};

    ghost Value = { List ℕ };

    ghost view = { λ s. drop s.at s.bytes.items };

    ghost invariant = { λ s. s.at ≤ vec_len s.bytes };
}

impl SureSource {
    /// A source of these bytes.
    pub fn new(bytes: Vec<u8>) -> SureSource
        ensures { result ≡ bytes.items }
    {
        SureSource { bytes, at: 0 }
    }
}

impl Source for SureSource {
    ghost left = { λ s. Some s };

    ghost faults = { λ _. 0 };

    fn read(&mut self, into: &mut [u8]) -> Result<usize, Failed>
        ensures count { IfOk result (λ n. n ≤ length into.old) }
        ensures front { IfOk result (λ n. ReadsFront (Some self.old) (Some self.new) into.new n) }
        ensures end { IfOk result (λ n. n ≡ 0 → 0 < length into.old → IsAtEnd (Some self.old)) }
        ensures complete { IsOk result }
        ensures value { IfOk result (λ n. n ≡ min (length self.old) (length into.old)) }
        ensures rest { IfOk result (λ n. into.new ≡ take n self.old ++ drop n into.old) }
    {
        let count = copy_front(&self.bytes[self.at..], into);
        self.at += count;
        Ok(count)
    }
}

/// A sink that takes all and keeps nothing.
#[derive(Drop)]
pub struct NullSink;

impl Sink for NullSink {
    ghost held = { λ _. None };

    ghost faults = { λ _. 0 };

    fn write(&mut self, piece: &[u8]) -> Result<(), Failed>
        ensures complete { IsOk result }
    {
        let _ = piece;
        Ok(())
    }
}

#[cfg(test)]
mod tests;
