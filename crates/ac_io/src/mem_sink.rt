ghost use Rattle.std.specs.Prelude.{◌≡◌, ◌≤◌, length, vec_capacity, Some, OnOk, OnErr, IsTrue, IsErr, false};
ghost use Rattle.ac_io.specs.Outside.{Rose, Adds, AddsFront};
ghost use Rattle.ac_io.specs.Memory.{is_named, new_outgoing, TookPiece, after_failed_write, IsStarved};

use crate::memory::is_failing;
use crate::outside::{Failed, Sink};
use std::marker::Model;

/// Bytes kept in memory. The calls of `write` whose numbers are in `failing` fail, and so do those that find
/// no memory; a call that fails adds nothing. The first has number 0.
#[derive(Drop)]
pub struct MemSink {
    held: Vec<u8>,
    call: u64,
    failing: Vec<u64>,
    faults: u64,
    starved: u64,
}

impl Model for MemSink {
    ghost use Rattle.std.specs.Prelude.{vec_capacity};
    ghost use Rattle.ac_io.specs.Memory.{Outgoing};

    ghost Value = { Outgoing };

    ghost view = { λ s.
        record {
          held = s.held.items;
          room = vec_capacity s.held;
          call = s.call;
          failing = s.failing.items;
          faults = s.faults;
          starved = s.starved;
        } };
}

impl MemSink {
    /// A sink that holds these bytes, and takes their vector's room.
    pub fn new(held: Vec<u8>, failing: Vec<u64>) -> MemSink
        ensures { result ≡ new_outgoing held.items (vec_capacity held) failing.items }
    {
        MemSink {
            held,
            call: 0,
            failing,
            faults: 0,
            starved: 0,
        }
    }

    /// How many calls found no memory.
    pub fn starved(&self) -> u64
        ensures { result ≡ self.now.starved }
    {
        self.starved
    }

    /// The bytes taken.
    pub fn bytes(&self) -> &[u8]
        ensures { result.now ≡ self.now.held }
    {
        &self.held
    }
}

impl Sink for MemSink {
    ghost held = { λ s. Some s.held };

    ghost faults = { λ s. s.faults };

    fn write(&mut self, piece: &[u8]) -> Result<(), Failed>
        ensures adds { OnOk result (Adds (Some self.old.held) (Some self.new.held) piece.now) }
        ensures rose { OnErr result (Rose self.old.faults self.new.faults) }
        ensures front { OnErr result (AddsFront (Some self.old.held) (Some self.new.held) piece.now) }
        ensures never_falls { self.old.faults ≤ self.new.faults }
        ensures told { OnOk result (TookPiece self.old self.new piece.now) }
        ensures complete { IsTrue (is_named self.old.failing self.old.call)
            → IsErr result × (self.new ≡ after_failed_write self.old) }
        ensures cause { OnErr result (is_named self.old.failing self.old.call ≡ false
            → IsStarved self.old self.new (length piece.now)) }
    {
        let fails = is_failing(&self.failing, self.call);
        self.call = self.call.saturating_add(1);
        if fails {
            self.faults = self.faults.saturating_add(1);
            return Err(Failed);
        }
        if self.held.extend_from_slice(piece).is_err() {
            self.starved = self.starved.saturating_add(1);
            self.faults = self.faults.saturating_add(1);
            return Err(Failed);
        }
        Ok(())
    }
}
