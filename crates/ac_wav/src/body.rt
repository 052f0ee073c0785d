//! The samples of a WAV, read piece by piece.
ghost use Rattle.std.specs.Prelude.{◌≡◌, ℕ, ◌+◌, ◌*◌, ◌≤◌, List, IfOk, IfErr, MatchResult, IsErrOf};
ghost use Rattle.ac_io.specs.Outside.{Rose};
ghost use Rattle.ac_riff.specs.Form.{IsOfProfile};
ghost use Rattle.ac_io.specs.Within.{IsAt, TakesAtMost};
ghost use Rattle.ac_wav.specs.Samples.{align_of, frame_bytes, RowsWithin, SamplesRead, IsUnsampled, UnsampledLeaves, IsStanding, PartRead};
ghost use Rattle.ac_riff.specs.declared.fault.WavFault.{WavFault};

use crate::samples::{align, spread};
use ac_io::Source;
use ac_riff::{WavFault, WavHead, WavKind, read_piece};

/// What one piece of the data gave.
#[derive(Clone, Copy)]
struct Piece {
    /// The bytes that were taken.
    bytes: u64,
    /// The whole samples of each channel in them.
    samples: usize,
}

/// The number of bytes that the next 1,536 samples ask for.
fn wanted(head: &WavHead, taken: u64) -> usize
    requires profile { IsOfProfile head.now }
    requires standing { IsStanding head.now taken }
    ensures value { result ≡ frame_bytes head.now taken }
    ensures most { result ≤ 1536 * align_of head.now }
    ensures fits { result ≤ 27648 }
{
    let full = 1536 * align(head);
    match head.size {
        None => full,
        Some(size) => (full as u64).min(u64::from(size) - (taken - head.taken)) as usize,
    }
}

/// Reads the bytes of the next 1,536 samples of each channel, or as many as are there, into the front of the piece.
fn read_part<S: Source>(
    head: &WavHead,
    taken: u64,
    limit: u64,
    input: &mut S,
    piece: &mut [u8; 27648],
) -> Result<usize, WavFault>
    requires profile { IsOfProfile head.now }
    requires standing { IsStanding head.now taken }
    requires room { taken ≤ limit }
    ensures count { IfOk result (λ n. n ≤ 1536 * align_of head.now) }
    ensures fits { IfOk result (λ n. n ≤ 27648) }
    ensures within { IfOk result (λ n. taken + n ≤ limit) }
    ensures stands { IfOk result (λ n. IsStanding head.now (taken + n)) }
    ensures told { (bytes : List ℕ) → IsAt bytes taken (S.left input.old) → MatchResult result
        (λ n. PartRead bytes head.now taken n piece.new (S.left input.new))
        (λ fault. UnsampledLeaves bytes head.now taken limit fault (S.left input.new)) }
    ensures cause { (bytes : List ℕ) → IsAt bytes taken (S.left input.old) → IfErr result (IsUnsampled bytes head.now taken limit) }
    ensures most_read { (bytes : List ℕ) → IsAt bytes taken (S.left input.old) → TakesAtMost bytes (limit + 1) (S.left input.new) }
    ensures rose { IsErrOf result WavFault.ReadFault → Rose (S.faults input.old) (S.faults input.new) }
    ensures never_falls { S.faults input.old ≤ S.faults input.new }
{
    let want = wanted(head, taken);
    let n = read_piece(input, taken, limit, &mut piece[..want])?;
    if n == want {
        return Ok(n);
    }
    match head.size {
        Some(_) => Err(WavFault::Bad(WavKind::Short, taken + n as u64)),
        None => Ok(n),
    }
}

/// Reads the next 1,536 samples of each channel, or as many as are there.
fn read_samples<S: Source>(
    head: &WavHead,
    taken: u64,
    limit: u64,
    input: &mut S,
    out: &mut [[i32; 1536]; 6],
) -> Result<Piece, WavFault>
    requires profile { IsOfProfile head.now }
    requires standing { IsStanding head.now taken }
    requires room { taken ≤ limit }
    ensures count { IfOk result (λ piece. piece.samples ≤ 1536) }
    ensures moves { IfOk result (λ piece. piece.samples ≤ piece.bytes) }
    ensures full { IfOk result (λ piece. piece.samples ≡ 1536 → piece.bytes ≡ 1536 * align_of head.now) }
    ensures within { IfOk result (λ piece. taken + piece.bytes ≤ limit) }
    ensures stands { IfOk result (λ piece. IsStanding head.now (taken + piece.bytes)) }
    ensures bound { IfOk result (λ _. RowsWithin out.new) }
    ensures kept { IfErr result (λ _. out.new ≡ out.old) }
    ensures told { (bytes : List ℕ) («from» : ℕ) → IsAt bytes taken (S.left input.old)
        → taken ≡ head.now.taken + «from» * align_of head.now → MatchResult result
        (λ piece. SamplesRead bytes head.now taken «from» (taken + piece.bytes) piece.samples out.new (S.left input.new))
        (λ fault. UnsampledLeaves bytes head.now taken limit fault (S.left input.new)) }
    ensures cause { (bytes : List ℕ) → IsAt bytes taken (S.left input.old) → IfErr result (IsUnsampled bytes head.now taken limit) }
    ensures most_read { (bytes : List ℕ) → IsAt bytes taken (S.left input.old) → TakesAtMost bytes (limit + 1) (S.left input.new) }
    ensures rose { IsErrOf result WavFault.ReadFault → Rose (S.faults input.old) (S.faults input.new) }
    ensures never_falls { S.faults input.old ≤ S.faults input.new }
{
    let mut piece = [0; 27648];
    let n = read_part(head, taken, limit, input, &mut piece)?;
    spread(head, &piece[..n], out);
    Ok(Piece {
        bytes: n as u64,
        samples: n / align(head),
    })
}

/// The samples of a WAV behind its head. It keeps its first refusal.
#[derive(Drop)]
pub struct WavBody {
    head: WavHead,
    limit: u64,
    taken: u64,
    ended: bool,
    kept: Option<WavFault>,
    ghost profile: { IsOfProfile head },
    ghost standing: { IsStanding head taken },
    ghost room: { taken ≤ limit },
}

mod reader;
#[cfg(test)]
mod tests;
