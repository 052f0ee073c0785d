//! The command decode.
ghost use Rattle.std.specs.Prelude.{◌≡◌, ◌≢◌, ℕ, ◌+◌, List, Some};
ghost use Rattle.ac_io.specs.Within.{TakesAtMost};
ghost use Rattle.ac_world.specs.Limit.{limit};
ghost use Rattle.ac_status.specs.Rises.{RoseFor};
ghost use Rattle.ac_status.specs.declared.status.Status.TheVariants.{Usage, NoMemory};
ghost use Rattle.ac_world.specs.World.{world, NeverFalls};
ghost use Rattle.ac_app.specs.Decoded.{DecodeLeaves, AnswersStream, ended_status};

use ac_dec::Decoder;
use ac_decode::{Halt, decode, open};
use ac_io::{Sink, Source, Unread};
use ac_status::Status;
use ac_world::LIMIT;
use std::alloc::Global;

/// The status of a decode that ended so.
fn ended(end: Result<(), Halt>) -> Status
    ensures { result ≡ ended_status end }
{
    match end {
        Ok(()) => Status::Ok,
        Err(Halt::Stream { frame, fault }) => Status::BadStream { frame, fault },
        Err(Halt::Input(Unread::Failed)) => Status::ReadFault,
        Err(Halt::Input(Unread::TooLong)) => Status::TooLong { limit: LIMIT },
        Err(Halt::Sink(_)) => Status::WriteFault,
    }
}

/// Decodes a stream, frame by frame, to a WAV.
pub fn decode_all<S: Source, O: Sink, N: Sink>(
    alloc: Global,
    input: &mut S,
    output: &mut O,
    report: &mut N,
) -> Status
    ensures told { (bytes : List ℕ) → S.left input.old ≡ Some bytes → DecodeLeaves result bytes
        (world S.left S.faults O.held O.faults N.held N.faults input.old output.old report.old)
        (world S.left S.faults O.held O.faults N.held N.faults input.new output.new report.new) }
    ensures answers { (bytes : List ℕ) → S.left input.old ≡ Some bytes → AnswersStream bytes result }
    ensures not_usage { result ≢ Status.Usage }
    ensures kept { result ≡ Status.NoMemory → (output.new ≡ output.old) × (report.new ≡ report.old) }
    ensures most_read { (bytes : List ℕ) → S.left input.old ≡ Some bytes → TakesAtMost bytes (limit + 1) (S.left input.new) }
    ensures rose { RoseFor result
        (world S.left S.faults O.held O.faults N.held N.faults input.old output.old report.old)
        (world S.left S.faults O.held O.faults N.held N.faults input.new output.new report.new) }
    ensures never_falls { NeverFalls
        (world S.left S.faults O.held O.faults N.held N.faults input.old output.old report.old)
        (world S.left S.faults O.held O.faults N.held N.faults input.new output.new report.new) }
{
    let Ok(mut decoder) = Decoder::new(alloc) else {
        return Status::NoMemory;
    };
    let Ok(mut work) = open(alloc) else {
        return Status::NoMemory;
    };
    let end = decode(&mut decoder, &mut work, input, output, report);
    ended(end)
}
