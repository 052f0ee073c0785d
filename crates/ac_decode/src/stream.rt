//! Decoding of a stream.
ghost use Rattle.std.specs.Prelude.{◌≡◌, ℕ, ◌+◌, List, Some, Ok, Err, IfErr, MatchResult};
ghost use Rattle.ac_io.specs.declared.within.Unread.TheVariants as unread;
ghost use Rattle.ac_io.specs.Within.{TakesAtMost};
ghost use Rattle.ac_record.specs.declared.codes.FrameFault.{FrameFault};
ghost use Rattle.ac_reading.specs.Framed.{Reading};
ghost use Rattle.ac_world.specs.World.{world, NeverFalls};
ghost use Rattle.ac_dec.specs.Decoding.{at_first};
ghost use Rattle.ac_decode.specs.Stream.{IsEnd, IsBadStream, IsTooLong};
ghost use Rattle.ac_world.specs.Limit.{limit};
ghost use Rattle.ac_decode.specs.Leaves.{Decoded, HaltLeaves, HaltRose, AnswersUnlessBroken};

use crate::frames::frames;
use crate::halt::Halt;
use crate::work::DecodeWork;
use ac_dec::Decoder;
use ac_io::{Sink, Source};

/// Decodes a stream of frames to a WAV, and reports each. A frame is read, decoded, written and reported before the next is read: the
/// head of the WAV by one write when the first frame is accepted, each frame's samples by one, then its line by one. At most `limit`
/// bytes of the input are taken, and one more to see whether there is one. Of no bytes nothing is written.
///
/// # Errors
///
/// `Stream` with the number of the first frame that is refused, and why; `Input(TooLong)` where byte number `limit` + 1 is needed and
/// there; `Input(Failed)` where a read failed; `Sink` where a write failed. What was accepted before stays written.
pub fn decode<S: Source, O: Sink, N: Sink>(
    decoder: &mut Decoder,
    work: &mut DecodeWork,
    input: &mut S,
    output: &mut O,
    report: &mut N,
) -> Result<(), Halt>
    requires { decoder.old ≡ at_first }
    ensures told { (bytes : List ℕ) → S.left input.old ≡ Some bytes → MatchResult result
        (λ _. Decoded bytes
        (world S.left S.faults O.held O.faults N.held N.faults input.old output.old report.old)
        (world S.left S.faults O.held O.faults N.held N.faults input.new output.new report.new))
        (λ halt. HaltLeaves halt bytes
        (world S.left S.faults O.held O.faults N.held N.faults input.old output.old report.old)
        (world S.left S.faults O.held O.faults N.held N.faults input.new output.new report.new)) }
    ensures complete { (bytes : List ℕ) (gs : List Reading) → S.left input.old ≡ Some bytes → IsEnd bytes gs
        → AnswersUnlessBroken (Ok tt) result }
    ensures refused { (bytes : List ℕ) (i : ℕ) (fault : FrameFault) → S.left input.old ≡ Some bytes → IsBadStream bytes i fault
        → AnswersUnlessBroken (Err (Halt.Stream i fault)) result }
    ensures too_long { (bytes : List ℕ) → S.left input.old ≡ Some bytes → IsTooLong bytes
        → AnswersUnlessBroken (Err (Halt.Input unread.TooLong)) result }
    ensures most_read { (bytes : List ℕ) → S.left input.old ≡ Some bytes → TakesAtMost bytes (limit + 1) (S.left input.new) }
    ensures rose { IfErr result (λ halt. HaltRose halt
        (world S.left S.faults O.held O.faults N.held N.faults input.old output.old report.old)
        (world S.left S.faults O.held O.faults N.held N.faults input.new output.new report.new)) }
    ensures never_falls { NeverFalls
        (world S.left S.faults O.held O.faults N.held N.faults input.old output.old report.old)
        (world S.left S.faults O.held O.faults N.held N.faults input.new output.new report.new) }
{
    frames(decoder, work, input, output, report)
}
