//! The loop over the frames: each is read, decoded, written and reported before the next is read.
ghost use Rattle.std.specs.Prelude.{◌≡◌, ℕ, ◌≤◌, ◌+◌, List, length, take, Some, IfErr, MatchResult};
ghost use Rattle.ac_io.specs.Within.{TakesAtMost};
ghost use Rattle.ac_reading.specs.Framed.{Reading};
ghost use Rattle.ac_world.specs.World.{sinks, SinksNeverFall, world, NeverFalls};
ghost use Rattle.ac_dec.specs.Decoding.{at_first};
ghost use Rattle.ac_world.specs.Limit.{limit};
ghost use Rattle.ac_decode.specs.Leaves.{Decoded, HaltLeaves, HaltRose};
ghost use Rattle.ac_decode.specs.Known.{Sees};
ghost use Rattle.ac_decode.specs.Loop.{StandsBehind, Goes, GoesNot, StepRose};

use crate::emit::emit;
use crate::halt::Halt;
use crate::next::{fit_law, next};
use crate::work::DecodeWork;
use ac_dec::{Decoder, sound_law};
use ac_io::{Sink, Source};

/// Decodes, writes and reports frame `i`, whose bytes are the first `n` of those that were read.
fn step<O: Sink, N: Sink>(
    i: u64,
    n: usize,
    decoder: &mut Decoder,
    work: &mut DecodeWork,
    output: &mut O,
    report: &mut N,
) -> Result<(), Halt>
    requires { n ≤ 3840 }
    ensures told { (gs : List Reading) → i ≡ length gs → StandsBehind gs decoder.old → MatchResult result
        (λ _. Goes gs (take n work.old.frame) decoder.new
        (sinks O.held O.faults N.held N.faults output.old report.old) (sinks O.held O.faults N.held N.faults output.new report.new))
        (λ halt. GoesNot gs (take n work.old.frame) halt
        (sinks O.held O.faults N.held N.faults output.old report.old) (sinks O.held O.faults N.held N.faults output.new report.new)) }
    ensures rose { IfErr result (λ halt. StepRose halt
        (sinks O.held O.faults N.held N.faults output.old report.old) (sinks O.held O.faults N.held N.faults output.new report.new)) }
    ensures never_falls { SinksNeverFall
        (sinks O.held O.faults N.held N.faults output.old report.old) (sinks O.held O.faults N.held N.faults output.new report.new) }
{
    sound_law();
    match decoder.frame(&work.frame[..n], &mut work.pcm) {
        Ok(heard) => {
            emit(i, &heard, &work.pcm, &mut work.samples, output, report)?;
            Ok(())
        }
        Err(fault) => Err(Halt::Stream { frame: i, fault }),
    }
}

/// Decodes the frames of the input, in order.
pub fn frames<S: Source, O: Sink, N: Sink>(
    decoder: &mut Decoder,
    work: &mut DecodeWork,
    input: &mut S,
    output: &mut O,
    report: &mut N,
) -> Result<(), Halt>
    requires { decoder.old ≡ at_first }
    ensures told { (bytes : List ℕ) → S.left input.old ≡ Some bytes → MatchResult result
        (λ _. Decoded bytes
        (world S.left S.faults O.held O.faults N.held N.faults input.old output.old report.old)
        (world S.left S.faults O.held O.faults N.held N.faults input.new output.new report.new))
        (λ halt. HaltLeaves halt bytes
        (world S.left S.faults O.held O.faults N.held N.faults input.old output.old report.old)
        (world S.left S.faults O.held O.faults N.held N.faults input.new output.new report.new)) }
    ensures sees { (bytes : List ℕ) → S.left input.old ≡ Some bytes → Sees bytes result }
    ensures most_read { (bytes : List ℕ) → S.left input.old ≡ Some bytes → TakesAtMost bytes (limit + 1) (S.left input.new) }
    ensures rose { IfErr result (λ halt. HaltRose halt
        (world S.left S.faults O.held O.faults N.held N.faults input.old output.old report.old)
        (world S.left S.faults O.held O.faults N.held N.faults input.new output.new report.new)) }
    ensures never_falls { NeverFalls
        (world S.left S.faults O.held O.faults N.held N.faults input.old output.old report.old)
        (world S.left S.faults O.held O.faults N.held N.faults input.new output.new report.new) }
{
    sound_law();
    let mut taken = 0;
    let mut i = 0;
    loop {
        let n = next(input, taken, &mut work.frame)?;
        if n == 0 {
            return Ok(());
        }
        fit_law(&work.frame);
        step(i, n, decoder, work, output, report)?;
        taken += n as u64;
        i += 1;
    }
}
