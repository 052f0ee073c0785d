ghost use Rattle.std.specs.Prelude.{◌≡◌, ◌<◌, ◌≤◌, ◌++◌, length, take, drop, min, Some, IfOk, OnErr, MatchResult, IsTrue, IsErr, ◌↔◌};
ghost use Rattle.ac_io.specs.Outside.{Rose, ReadsFront, IsAtEnd, LosesNothing};
ghost use Rattle.ac_io.specs.Memory.{is_named, new_incoming, after_read, after_failed_read};

use crate::memory::{copy_front, is_failing};
use crate::outside::{Failed, Source};
use std::marker::Model;

/// Bytes in memory. The calls of `read` whose numbers are in `failing` fail and take nothing; the first
/// has number 0.
#[derive(Drop)]
pub struct MemSource {
    bytes: Vec<u8>,
    at: usize,
    call: u64,
    failing: Vec<u64>,
    faults: u64,
}

impl Model for MemSource {
    ghost use Rattle.std.specs.Prelude.{◌≤◌, drop, vec_len};
    ghost use Rattle.ac_io.specs.Memory.{Incoming};

    ghost Value = { Incoming };

    ghost view = { λ s.
        record { rest = drop s.at s.bytes.items; call = s.call; failing = s.failing.items; faults = s.faults } };

    ghost invariant = { λ s. s.at ≤ vec_len s.bytes };
}

impl MemSource {
    /// A source of these bytes.
    pub fn new(bytes: Vec<u8>, failing: Vec<u64>) -> MemSource
        ensures { result ≡ new_incoming bytes.items failing.items }
    {
        MemSource {
            bytes,
            at: 0,
            call: 0,
            failing,
            faults: 0,
        }
    }
}

impl Source for MemSource {
    ghost left = { λ s. Some s.rest };

    ghost faults = { λ s. s.faults };

    fn read(&mut self, into: &mut [u8]) -> Result<usize, Failed>
        ensures count { IfOk result (λ n. n ≤ length into.old) }
        ensures front { IfOk result (λ n. ReadsFront (Some self.old.rest) (Some self.new.rest) into.new n) }
        ensures end { IfOk result (λ n. n ≡ 0 → 0 < length into.old → IsAtEnd (Some self.old.rest)) }
        ensures rose { OnErr result (Rose self.old.faults self.new.faults) }
        ensures kept { OnErr result (LosesNothing (Some self.old.rest) (Some self.new.rest)) }
        ensures never_falls { self.old.faults ≤ self.new.faults }
        ensures cause { IsErr result ↔ IsTrue (is_named self.old.failing self.old.call) }
        ensures value { IfOk result (λ n. n ≡ min (length self.old.rest) (length into.old)) }
        ensures rest { IfOk result (λ n. into.new ≡ take n self.old.rest ++ drop n into.old) }
        ensures told { MatchResult result (λ n. self.new ≡ after_read self.old n) (λ _. self.new ≡ after_failed_read self.old) }
        ensures unwritten { OnErr result (into.new ≡ into.old) }
    {
        let fails = is_failing(&self.failing, self.call);
        self.call = self.call.saturating_add(1);
        if fails {
            self.faults = self.faults.saturating_add(1);
            return Err(Failed);
        }
        let count = copy_front(&self.bytes[self.at..], into);
        self.at += count;
        Ok(count)
    }
}
