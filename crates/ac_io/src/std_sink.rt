ghost use Rattle.std.specs.Prelude.{◌≡◌, ◌<◌, ◌≤◌, [], length, take, IfOk, OnOk, OnErr};
ghost use Rattle.ac_io.specs.Outside.{Rose, Adds, AddsFront, next};

use crate::outside::{Failed, Sink};
use std::io::Write;

/// A writer of std. It tells the bytes taken where the writer does.
#[derive(Drop)]
pub struct StdSink<W: Write + Drop> {
    inner: W,
    faults: u64,
}

impl<W: Write + Drop> StdSink<W> {
    /// A sink that writes to `inner`.
    pub fn new(inner: W) -> StdSink<W>
        ensures held { W.contents result.inner ≡ W.contents inner }
        ensures faults { result.faults ≡ 0 }
    {
        StdSink { inner, faults: 0 }
    }

    /// One write of std, which has to take some bytes.
    fn write_some(&mut self, piece: &[u8]) -> Result<usize, Failed>
        requires { 0 < length piece.now }
        ensures count { IfOk result (λ n. (0 < n) × (n ≤ length piece.now)) }
        ensures bytes { IfOk result (λ n.
            Adds (W.contents self.old.inner) (W.contents self.new.inner) (take n piece.now)) }
        ensures kept { OnErr result (Adds (W.contents self.old.inner) (W.contents self.new.inner) []) }
        ensures rose { OnErr result (self.new.faults ≡ next self.old.faults) }
        ensures counted { OnOk result (self.new.faults ≡ self.old.faults) }
    {
        let outcome = self.inner.write(piece);
        match outcome {
            Ok(count) if count > 0 => Ok(count),
            _ => {
                self.faults = self.faults.saturating_add(1);
                Err(Failed)
            }
        }
    }
}

impl<W: Write + Drop> Sink for StdSink<W> {
    ghost held = { λ s. W.contents s.inner };

    ghost faults = { λ s. s.faults };

    fn write(&mut self, piece: &[u8]) -> Result<(), Failed>
        ensures adds { OnOk result (Adds (W.contents self.old.inner) (W.contents self.new.inner) piece.now) }
        ensures rose { OnErr result (Rose self.old.faults self.new.faults) }
        ensures front { OnErr result (AddsFront (W.contents self.old.inner) (W.contents self.new.inner) piece.now) }
        ensures never_falls { self.old.faults ≤ self.new.faults }
        ensures once { OnErr result (self.new.faults ≡ next self.old.faults) }
        ensures counted { OnOk result (self.new.faults ≡ self.old.faults) }
    {
        let mut done: usize = 0;
        while done < piece.len() {
            done += self.write_some(&piece[done..])?;
        }
        Ok(())
    }
}

#[cfg(test)]
mod tests;
