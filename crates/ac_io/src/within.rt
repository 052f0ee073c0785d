//! Reading up to a limit on all bytes that are taken.
ghost use Rattle.std.specs.Prelude.{◌≡◌, ℕ, ◌+◌, ◌-◌, ◌≤◌, ◌<◌, List, length, Some, IfOk, MatchResult, IsErrOf};
ghost use Rattle.ac_io.specs.Outside.{Rose};
ghost use Rattle.ac_io.specs.Within.{IsAt, TakesAtMost, ReadsOn, StopsAt, ReadsAll, IsLonger};
ghost use Rattle.ac_io.specs.declared.within.Unread.TheVariants as unread;

use crate::outside::{Failed, Source, fill};

/// Why bytes weren't read within a limit.
#[derive(Clone, Copy, Debug, PartialEq, Eq)]
pub enum Unread {
    /// A read failed.
    Failed,
    /// A byte past the limit was needed, and it was there.
    TooLong,
}

impl From<Failed> for Unread {
    ghost use Rattle.ac_io.specs.declared.within.Unread.TheVariants as unread;

    ghost from_gives = { λ _ why. why ≡ unread.Failed };

    fn from(_failed: Failed) -> Unread {
        Unread::Failed
    }
}

/// Reads up to the limit, which stands at the end of `into`.
fn read_to_limit<S: Source>(input: &mut S, into: &mut [u8]) -> Result<usize, Unread>
    ensures count { IfOk result (λ n. n ≤ length into.old) }
    ensures told { (bytes : List ℕ) → S.left input.old ≡ Some bytes → MatchResult result
        (λ n. ReadsAll bytes n into.new (S.left input.new)) (λ why. IsLonger bytes (length into.old) why (S.left input.new)) }
    ensures rose { IsErrOf result unread.Failed → Rose (S.faults input.old) (S.faults input.new) }
    ensures never_falls { S.faults input.old ≤ S.faults input.new }
{
    let n = fill(input, into)?;
    if n < into.len() {
        return Ok(n);
    }
    let mut one = [0; 1];
    let more = fill(input, &mut one)?;
    if more > 0 {
        return Err(Unread::TooLong);
    }
    Ok(n)
}

/// Reads until `into` is full or the input ends, behind the first `taken` bytes, and gives the number of bytes read.
/// With those, at most `limit` bytes and one more are taken, whatever it answers.
///
/// # Errors
///
/// `TooLong` where byte number `limit` + 1 is needed and there; it is then the last that was taken. `Failed` where a read
/// failed. A source that still tells its bytes lost fewer of them than `into` has room for, and none past the limit.
pub fn read_within<S: Source>(
    input: &mut S,
    taken: u64,
    limit: u64,
    into: &mut [u8],
) -> Result<usize, Unread>
    requires { taken ≤ limit }
    ensures count { IfOk result (λ n. n ≤ length into.old) }
    ensures bound { IfOk result (λ n. taken + n ≤ limit) }
    ensures told { (bytes : List ℕ) → IsAt bytes taken (S.left input.old) → MatchResult result
        (λ n. ReadsOn bytes taken n into.new (S.left input.new))
        (λ why. StopsAt bytes taken (length into.old) limit why (S.left input.new)) }
    ensures most_read { (bytes : List ℕ) → IsAt bytes taken (S.left input.old) → TakesAtMost bytes (limit + 1) (S.left input.new) }
    ensures rose { IsErrOf result unread.Failed → Rose (S.faults input.old) (S.faults input.new) }
    ensures never_falls { S.faults input.old ≤ S.faults input.new }
{
    let room = limit - taken;
    if into.len() as u64 <= room {
        return Ok(fill(input, into)?);
    }
    read_to_limit(input, &mut into[..room as usize])
}

#[cfg(test)]
mod tests;
