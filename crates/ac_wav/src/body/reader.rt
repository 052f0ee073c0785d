//! The samples of a WAV behind its head, 1,536 of each channel at a time.
ghost use Rattle.std.specs.Prelude.{◌≡◌, ◌≢◌, ℕ, ◌+◌, ◌*◌, ◌≤◌, List, Some, None, IfOk, IfErr, MatchResult, IsErrOf, true, Ok, Err, replicate, pos};
ghost use Rattle.ac_io.specs.Outside.{Rose};
ghost use Rattle.ac_riff.specs.Form.{IsOfProfile};
ghost use Rattle.ac_io.specs.Within.{IsAt, TakesAtMost};
ghost use Rattle.ac_wav.specs.Samples.{RowsWithin, SamplesRead, IsUnsampled, UnsampledLeaves, FramesTaken, StopsExactly};
ghost use Rattle.ac_wav.specs.Body.{head_in, limit_of, taken_by, is_ended, kept_by, IsBehind, StandsBehind, EndsAt};
ghost use Rattle.ac_riff.specs.declared.fault.WavFault.{WavFault};

use super::{WavBody, read_samples};
use ac_io::Source;
use ac_riff::{WavFault, WavHead};

/// Sets all rows to 0.
fn clear(out: &mut [[i32; 1536]; 6])
    ensures { out.new ≡ replicate 6 (replicate 1536 (pos 0)) }
{
    *out = [[0; 1536]; 6];
}

impl WavBody {
    /// A body that stands at the first byte of the data, and keeps no refusal.
    pub fn new(head: &WavHead, limit: u64) -> WavBody
        requires profile { IsOfProfile head.now }
        requires room { head.now.taken ≤ limit }
        ensures head { head_in result ≡ head.now }
        ensures limit { limit_of result ≡ limit }
        ensures stands { IsBehind result 0 }
    {
        WavBody {
            head: *head,
            limit,
            taken: head.taken,
            ended: false,
            kept: None,
        }
    }

    /// The next samples of each coded channel, in coding order with LFE last, of 24 bits; zeros stand behind them.
    /// Gives their number. Below 1,536 it is the end of the data, and from then on it is 0, without a read.
    /// With the bytes taken before, at most the limit and one byte more are taken, whatever it answers.
    ///
    /// # Errors
    ///
    /// `Bad(Short, ..)` where the input ends inside data of a stated size, `TooLong` where a byte past the limit is
    /// needed and there, `ReadFault` where a read failed. From then on it is the same refusal, without a read. `out` stays as
    /// it was wherever it refuses.
    pub fn samples<S: Source>(
        &mut self,
        input: &mut S,
        out: &mut [[i32; 1536]; 6],
    ) -> Result<usize, WavFault>
        ensures head { head_in self.new ≡ head_in self.old }
        ensures limit { limit_of self.new ≡ limit_of self.old }
        ensures within { taken_by self.new ≤ limit_of self.new }
        ensures least { (head_in self.new).taken ≤ taken_by self.new }
        ensures count { IfOk result (λ n. n ≤ 1536) }
        ensures bound { IfOk result (λ _. RowsWithin out.new) }
        ensures kept { IfErr result (λ _. out.new ≡ out.old) }
        // What was read; and what a refusal leaves of the input.
        ensures told { (bytes : List ℕ) («from» : ℕ) → StandsBehind bytes self.old «from» (S.left input.old) → MatchResult result
            (λ n. SamplesRead bytes (head_in self.old) (taken_by self.old) «from» (taken_by self.new) n out.new (S.left input.new))
            (λ fault. UnsampledLeaves bytes (head_in self.old) (taken_by self.old) (limit_of self.old) fault (S.left input.new)) }
        // Whole frames read so far are all that the data bytes taken hold.
        ensures frames { (bytes : List ℕ) (n : ℕ) → StandsBehind bytes self.old (1536 * n) (S.left input.old)
            → IfErr result (λ _. FramesTaken bytes (head_in self.old) (limit_of self.old) n (S.left input.new)) }
        // A refusal has its cause, and comes where its cause is there.
        ensures cause { (bytes : List ℕ) («from» : ℕ) → StandsBehind bytes self.old «from» (S.left input.old)
            → IfErr result (IsUnsampled bytes (head_in self.old) (taken_by self.old) (limit_of self.old)) }
        ensures complete { (bytes : List ℕ) («from» : ℕ) → StandsBehind bytes self.old «from» (S.left input.old)
            → result ≢ Err WavFault.ReadFault
            → StopsExactly bytes (head_in self.old) (taken_by self.old) (limit_of self.old) result }
        ensures moves { IfOk result (λ n. taken_by self.old + n ≤ taken_by self.new) }
        ensures next { («from» : ℕ) → IsBehind self.old «from» → IfOk result (λ n. n ≡ 1536 → IsBehind self.new («from» + 1536)) }
        ensures ends { kept_by self.old ≡ None → IfOk result (EndsAt self.old self.new) }
        // The first refusal stays, without a read; and so does the end.
        ensures keeps { IfErr result (λ fault. kept_by self.new ≡ Some fault) }
        ensures refused { (fault : WavFault) → kept_by self.old ≡ Some fault
            → (result ≡ Err fault) × (self.new ≡ self.old) × (input.new ≡ input.old) }
        ensures over { kept_by self.old ≡ None → is_ended self.old ≡ true
            → (result ≡ Ok 0) × (self.new ≡ self.old) × (input.new ≡ input.old) × (out.new ≡ replicate 6 (replicate 1536 (pos 0))) }
        ensures most_read { (bytes : List ℕ) → IsAt bytes (taken_by self.old) (S.left input.old)
            → TakesAtMost bytes (limit_of self.old + 1) (S.left input.new) }
        ensures rose { kept_by self.old ≡ None → IsErrOf result WavFault.ReadFault → Rose (S.faults input.old) (S.faults input.new) }
        ensures never_falls { S.faults input.old ≤ S.faults input.new }
    {
        if let Some(fault) = self.kept {
            return Err(fault);
        }
        if self.ended {
            clear(out);
            return Ok(0);
        }
        match read_samples(&self.head, self.taken, self.limit, input, out) {
            Ok(piece) => {
                self.taken += piece.bytes;
                self.ended = piece.samples < 1536;
                Ok(piece.samples)
            }
            Err(fault) => {
                self.kept = Some(fault);
                Err(fault)
            }
        }
    }
}
