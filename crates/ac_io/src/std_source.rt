ghost use Rattle.std.specs.Prelude.{◌≡◌, ◌<◌, ◌≤◌, length, IfOk, OnOk, OnErr};
ghost use Rattle.ac_io.specs.Outside.{Rose, ReadsFront, IsAtEnd, LosesNothing, next};

use crate::outside::{Failed, Source};
use std::io::Read;

/// A reader of std. It tells the bytes to come where the reader does.
#[derive(Drop)]
pub struct StdSource<R: Read + Drop> {
    inner: R,
    faults: u64,
}

impl<R: Read + Drop> StdSource<R> {
    /// A source that reads from `inner`.
    pub fn new(inner: R) -> StdSource<R>
        ensures left { R.remaining result.inner ≡ R.remaining inner }
        ensures faults { result.faults ≡ 0 }
    {
        StdSource { inner, faults: 0 }
    }
}

impl<R: Read + Drop> Source for StdSource<R> {
    ghost left = { λ s. R.remaining s.inner };

    ghost faults = { λ s. s.faults };

    fn read(&mut self, into: &mut [u8]) -> Result<usize, Failed>
        ensures count { IfOk result (λ n. n ≤ length into.old) }
        ensures front { IfOk result (λ n.
            ReadsFront (R.remaining self.old.inner) (R.remaining self.new.inner) into.new n) }
        ensures end { IfOk result (λ n. n ≡ 0 → 0 < length into.old → IsAtEnd (R.remaining self.old.inner)) }
        ensures rose { OnErr result (Rose self.old.faults self.new.faults) }
        ensures kept { OnErr result (LosesNothing (R.remaining self.old.inner) (R.remaining self.new.inner)) }
        ensures never_falls { self.old.faults ≤ self.new.faults }
        ensures once { OnErr result (self.new.faults ≡ next self.old.faults) }
        ensures counted { OnOk result (self.new.faults ≡ self.old.faults) }
    {
        match self.inner.read(into) {
            Ok(count) => Ok(count),
            Err(_) => {
                self.faults = self.faults.saturating_add(1);
                Err(Failed)
            }
        }
    }
}

#[cfg(test)]
mod tests;
