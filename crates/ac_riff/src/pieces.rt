//! Pieces of the input, up to a limit.
ghost use Rattle.std.specs.Prelude.{ℕ, ◌+◌, ◌-◌, ◌≤◌, ◌<◌, List, length, IfOk, IfErr, OnOk, MatchResult, IsErrOf};
ghost use Rattle.ac_io.specs.Outside.{Rose};
ghost use Rattle.ac_io.specs.Within.{IsAt, ReadsOn, TakesAtMost};
ghost use Rattle.ac_riff.specs.Pieces.{IsUnread, UnreadLeaves, IsUntaken};
ghost use Rattle.ac_riff.specs.Refusal.{RefusalLeaves};

use crate::fault::{WavFault, WavKind};
use ac_io::{Source, Unread, read_within};

/// The most bytes that are passed over at once.
const PIECE: u64 = 4096;

/// Reads until `into` is full or the input ends, behind the first `taken` bytes.
///
/// # Errors
///
/// `TooLong` where a byte past the limit is needed and there, `ReadFault` where a read failed.
pub fn read_piece<S: Source>(
    input: &mut S,
    taken: u64,
    limit: u64,
    into: &mut [u8],
) -> Result<usize, WavFault>
    requires { taken ≤ limit }
    ensures count { IfOk result (λ n. n ≤ length into.old) }
    ensures bound { IfOk result (λ n. taken + n ≤ limit) }
    ensures told { (bytes : List ℕ) → IsAt bytes taken (S.left input.old) → MatchResult result
        (λ n. ReadsOn bytes taken n into.new (S.left input.new))
        (λ fault. UnreadLeaves bytes taken (length into.old) limit fault (S.left input.new)) }
    ensures cause { (bytes : List ℕ) → IsAt bytes taken (S.left input.old)
        → IfErr result (IsUnread bytes taken (length into.old) limit) }
    ensures most_read { (bytes : List ℕ) → IsAt bytes taken (S.left input.old) → TakesAtMost bytes (limit + 1) (S.left input.new) }
    ensures no_further { (bytes : List ℕ) → IsAt bytes taken (S.left input.old) → IsErrOf result WavFault.ReadFault
        → TakesAtMost bytes (taken + length into.old) (S.left input.new) }
    ensures rose { IsErrOf result WavFault.ReadFault → Rose (S.faults input.old) (S.faults input.new) }
    ensures never_falls { S.faults input.old ≤ S.faults input.new }
{
    match read_within(input, taken, limit, into) {
        Ok(n) => Ok(n),
        Err(Unread::Failed) => Err(WavFault::ReadFault),
        Err(Unread::TooLong) => Err(WavFault::TooLong),
    }
}

/// Fills `into` with the bytes behind the first `taken`.
///
/// # Errors
///
/// `Bad(Short, ..)` where the input ends before, and those of `read_piece`.
pub fn read_exact<S: Source>(
    input: &mut S,
    taken: u64,
    limit: u64,
    into: &mut [u8],
) -> Result<(), WavFault>
    requires { taken ≤ limit }
    ensures bound { OnOk result (taken + length into.old ≤ limit) }
    ensures told { (bytes : List ℕ) → IsAt bytes taken (S.left input.old) → MatchResult result
        (λ _. ReadsOn bytes taken (length into.old) into.new (S.left input.new))
        (λ fault. RefusalLeaves bytes limit fault (S.left input.new)) }
    ensures cause { (bytes : List ℕ) → IsAt bytes taken (S.left input.old)
        → IfErr result (IsUntaken bytes taken (length into.old) limit) }
    ensures most_read { (bytes : List ℕ) → IsAt bytes taken (S.left input.old) → TakesAtMost bytes (limit + 1) (S.left input.new) }
    ensures no_further { (bytes : List ℕ) → IsAt bytes taken (S.left input.old) → IsErrOf result WavFault.ReadFault
        → TakesAtMost bytes (taken + length into.old) (S.left input.new) }
    ensures rose { IsErrOf result WavFault.ReadFault → Rose (S.faults input.old) (S.faults input.new) }
    ensures never_falls { S.faults input.old ≤ S.faults input.new }
{
    let n = read_piece(input, taken, limit, into)?;
    if n < into.len() {
        return Err(WavFault::Bad(WavKind::Short, taken + n as u64));
    }
    Ok(())
}

/// Passes over `count` bytes behind the first `taken`.
///
/// # Errors
///
/// Those of `read_exact`.
pub fn pass_over<S: Source>(
    input: &mut S,
    taken: u64,
    limit: u64,
    count: u64,
) -> Result<(), WavFault>
    requires { taken ≤ limit }
    ensures bound { OnOk result (taken + count ≤ limit) }
    ensures told { (bytes : List ℕ) → IsAt bytes taken (S.left input.old) → MatchResult result
        (λ _. IsAt bytes (taken + count) (S.left input.new))
        (λ fault. RefusalLeaves bytes limit fault (S.left input.new)) }
    ensures cause { (bytes : List ℕ) → IsAt bytes taken (S.left input.old) → IfErr result (IsUntaken bytes taken count limit) }
    ensures most_read { (bytes : List ℕ) → IsAt bytes taken (S.left input.old) → TakesAtMost bytes (limit + 1) (S.left input.new) }
    ensures no_further { (bytes : List ℕ) → IsAt bytes taken (S.left input.old) → IsErrOf result WavFault.ReadFault
        → TakesAtMost bytes (taken + count) (S.left input.new) }
    ensures rose { IsErrOf result WavFault.ReadFault → Rose (S.faults input.old) (S.faults input.new) }
    ensures never_falls { S.faults input.old ≤ S.faults input.new }
{
    let mut piece = [0; 4096];
    let mut done = 0;
    while done < count {
        let want = (count - done).min(PIECE);
        read_exact(input, taken + done, limit, &mut piece[..want as usize])?;
        done += want;
    }
    Ok(())
}
