ghost use Rattle.std.specs.Prelude.{◌≡◌, ℕ, ◌+◌, ◌-◌, ◌<◌, ◌≤◌, List, length, Option, IfOk, OnOk, OnErr, IfSome};
ghost use Rattle.ac_io.specs.Outside.{Rose, ReadsFront, IsAtEnd, LosesNothing, LosesFewer, Adds, AddsFront};

/// A read or a write failed.
#[derive(Clone, Copy, Debug, PartialEq, Eq)]
pub struct Failed;

/// Bytes to come.
pub trait Source {
    /// The bytes to come, where they are told.
    ghost left: { Self → Option (List ℕ) };

    /// How many calls failed. The count stands still at the end of its 64 bits.
    ghost faults: { Self → ℕ };

    /// Reads some bytes into the front of `into`, and gives their number. For an `into` that isn't
    /// empty, 0 is the end of the input.
    ///
    /// # Errors
    ///
    /// `Failed` where the count of faults rose, or stands at its end. A source that still tells its bytes
    /// lost none.
    fn read(&mut self, into: &mut [u8]) -> Result<usize, Failed>
        ensures count { IfOk result (λ n. n ≤ length into.old) }
        ensures front { IfOk result (λ n. ReadsFront (left self.old) (left self.new) into.new n) }
        ensures end { IfOk result (λ n. n ≡ 0 → 0 < length into.old → IsAtEnd (left self.old)) }
        ensures rose { OnErr result (Rose (faults self.old) (faults self.new)) }
        ensures kept { OnErr result (LosesNothing (left self.old) (left self.new)) }
        ensures never_falls { faults self.old ≤ faults self.new };
}

/// Takes bytes.
pub trait Sink {
    /// The bytes taken, where they are told.
    ghost held: { Self → Option (List ℕ) };

    /// How many calls failed. The count stands still at the end of its 64 bits.
    ghost faults: { Self → ℕ };

    /// Takes the whole piece.
    ///
    /// # Errors
    ///
    /// `Failed` where the count of faults rose, or stands at its end. The sink took a front of the piece.
    fn write(&mut self, piece: &[u8]) -> Result<(), Failed>
        ensures adds { OnOk result (Adds (held self.old) (held self.new) piece.now) }
        ensures rose { OnErr result (Rose (faults self.old) (faults self.new)) }
        ensures front { OnErr result (AddsFront (held self.old) (held self.new) piece.now) }
        ensures never_falls { faults self.old ≤ faults self.new };
}

/// Reads until `into` is full or the input ends, and gives the number of bytes read.
///
/// # Errors
///
/// `Failed` where a read failed. A source that still tells its bytes lost fewer of them than `into` has
/// room for.
pub fn fill<S: Source>(input: &mut S, into: &mut [u8]) -> Result<usize, Failed>
    ensures count { IfOk result (λ n. n ≤ length into.old) }
    ensures front { IfOk result (λ n. ReadsFront (S.left input.old) (S.left input.new) into.new n) }
    ensures end { IfOk result (λ n.
        n < length into.old → IfSome (S.left input.old) (λ bytes. n ≡ length bytes)) }
    ensures rose { OnErr result (Rose (S.faults input.old) (S.faults input.new)) }
    ensures kept { OnErr result (LosesFewer (S.left input.old) (S.left input.new) (length into.old)) }
    ensures never_falls { S.faults input.old ≤ S.faults input.new }
{
    let mut done = 0;
    while done < into.len() {
        let n = input.read(&mut into[done..])?;
        if n == 0 {
            return Ok(done);
        }
        done += n;
    }
    Ok(done)
}

#[cfg(test)]
mod tests;
