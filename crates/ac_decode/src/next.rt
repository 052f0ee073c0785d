//! The bytes that are looked at of the next frame.
ghost use Rattle.std.specs.Prelude.{◌≡◌, ℕ, ◌+◌, ◌-◌, ◌^◌, ◌<◌, ◌≤◌, List, take, drop, slice_index, MatchResult, IfOk, IsErrOf};
ghost use Rattle.ac_io.specs.declared.within.Unread.TheVariants as unread;
ghost use Rattle.ac_io.specs.Outside.{Rose};
ghost use Rattle.ac_io.specs.Within.{IsAt, StopsAt, TakesAtMost};
ghost use Rattle.ac_decode.specs.Looks.{ReadsSome, ReadsNext, StopsNext};
ghost use Rattle.ac_world.specs.Limit.{limit};

use ac_bits::FRAME_BYTES;
use ac_io::{Source, Unread, read_within};
use ac_reading::size;
use ac_world::LIMIT;

/// Reads the first six bytes of the next frame, behind the first `taken` bytes; fewer only at the end of the input.
fn begin<S: Source>(
    input: &mut S,
    taken: u64,
    into: &mut [u8; FRAME_BYTES],
) -> Result<usize, Unread>
    requires { taken ≤ limit }
    ensures count { IfOk result (λ n. n ≤ 6) }
    ensures bound { IfOk result (λ n. taken + n ≤ limit) }
    ensures told { (bytes : List ℕ) → IsAt bytes taken (S.left input.old) → MatchResult result
        (λ n. ReadsSome bytes taken n 6 into.new (S.left input.new)) (λ why. StopsAt bytes taken 6 limit why (S.left input.new)) }
    ensures most_read { (bytes : List ℕ) → IsAt bytes taken (S.left input.old) → TakesAtMost bytes (limit + 1) (S.left input.new) }
    ensures rose { IsErrOf result unread.Failed → Rose (S.faults input.old) (S.faults input.new) }
    ensures never_falls { S.faults input.old ≤ S.faults input.new }
{
    read_within(input, taken, LIMIT, &mut into[..6])
}

/// Reads the other bytes of a frame of `whole` bytes, behind the six that stand in `into`; fewer only at the end of the input.
fn finish<S: Source>(
    input: &mut S,
    taken: u64,
    whole: usize,
    into: &mut [u8; FRAME_BYTES],
) -> Result<usize, Unread>
    requires taken { taken + 6 ≤ limit }
    requires least { 6 ≤ whole }
    requires most { whole ≤ 3840 }
    ensures count { IfOk result (λ n. 6 + n ≤ whole) }
    ensures bound { IfOk result (λ n. taken + 6 + n ≤ limit) }
    ensures told { (bytes : List ℕ) → IsAt bytes (taken + 6) (S.left input.old) → MatchResult result
        (λ n. ReadsSome bytes (taken + 6) n (whole - 6) (drop 6 into.new) (S.left input.new))
        (λ why. StopsAt bytes (taken + 6) (whole - 6) limit why (S.left input.new)) }
    ensures kept { take 6 into.new ≡ take 6 into.old }
    ensures most_read { (bytes : List ℕ) → IsAt bytes (taken + 6) (S.left input.old)
        → TakesAtMost bytes (limit + 1) (S.left input.new) }
    ensures rose { IsErrOf result unread.Failed → Rose (S.faults input.old) (S.faults input.new) }
    ensures never_falls { S.faults input.old ≤ S.faults input.new }
{
    read_within(input, taken + 6, LIMIT, &mut into[6..whole])
}

/// The entries of an array of bytes are bytes.
pub fn fit_law(piece: &[u8; FRAME_BYTES])
    ensures { (k : ℕ) → slice_index piece.now k < 2 ^ 8 }
{
    let _first = piece[0];
}

/// Reads all that is looked at of the next frame, behind the first `taken` bytes, and gives the number of bytes: none at the end of
/// the input, six where these say no size, else what they say, or fewer where the input ends.
///
/// # Errors
///
/// As `read_within`.
pub fn next<S: Source>(
    input: &mut S,
    taken: u64,
    into: &mut [u8; FRAME_BYTES],
) -> Result<usize, Unread>
    requires { taken ≤ limit }
    ensures count { IfOk result (λ n. n ≤ 3840) }
    ensures bound { IfOk result (λ n. taken + n ≤ limit) }
    ensures told { (bytes : List ℕ) → IsAt bytes taken (S.left input.old) → MatchResult result
        (λ n. ReadsNext bytes taken n into.new (S.left input.new)) (λ why. StopsNext bytes taken why (S.left input.new)) }
    ensures most_read { (bytes : List ℕ) → IsAt bytes taken (S.left input.old) → TakesAtMost bytes (limit + 1) (S.left input.new) }
    ensures rose { IsErrOf result unread.Failed → Rose (S.faults input.old) (S.faults input.new) }
    ensures never_falls { S.faults input.old ≤ S.faults input.new }
{
    let head = begin(input, taken, into)?;
    if head < 6 {
        return Ok(head);
    }
    let first = [into[0], into[1], into[2], into[3], into[4], into[5]];
    let Ok(whole) = size(&first) else {
        return Ok(6);
    };
    fit_law(into);
    let more = finish(input, taken, usize::from(whole), into)?;
    Ok(6 + more)
}
