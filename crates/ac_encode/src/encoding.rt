//! The command encode.
ghost use Rattle.std.specs.Prelude.{◌≡◌, ◌≢◌, ℕ, ◌+◌, List, Some};
ghost use Rattle.ac_io.specs.Within.{TakesAtMost};
ghost use Rattle.ac_words.specs.Lawful.{AreOptions};
ghost use Rattle.ac_world.specs.Limit.{limit};
ghost use Rattle.ac_encode.specs.Encodes.{EncodeLeaves, EncodeHasCause};
ghost use Rattle.ac_status.specs.Rises.{RoseFor};
ghost use Rattle.ac_encode.specs.Loop.{unread_status, denied_status, ended_status};
ghost use Rattle.ac_world.specs.World.{world, NeverFalls};
ghost use Rattle.ac_status.specs.declared.status.Status.TheVariants.{Ok, Usage, RateTooLow, ReadFault, WriteFault, NoMemory};

use crate::frames::{Stop, frames};
use crate::work::open;
use ac_enc::{Encoder, NewFault};
use ac_io::{Sink, Source};
use ac_status::Status;
use ac_wav::{WavFault, WavHead};
use ac_words::Options;
use ac_world::LIMIT;
use std::alloc::Global;

/// The status of an input that wasn't read.
fn unread(fault: WavFault) -> Status
    ensures { result ≡ unread_status fault }
{
    match fault {
        WavFault::Bad(kind, place) => Status::BadWav(kind, place),
        WavFault::ReadFault => Status::ReadFault,
        WavFault::TooLong => Status::TooLong { limit: LIMIT },
    }
}

/// The status of an encode for which there is no encoder.
fn denied(fault: NewFault) -> Status
    ensures { result ≡ denied_status fault }
{
    match fault {
        NewFault::RateTooLow { part, needed, room } => Status::RateTooLow { part, needed, room },
        NewFault::NoMemory => Status::NoMemory,
    }
}

/// The status of an encode whose frames ended so.
fn ended(end: Result<(), Stop>) -> Status
    ensures { result ≡ ended_status end }
{
    match end {
        Ok(()) => Status::Ok,
        Err(Stop::Input(fault)) => unread(fault),
        Err(Stop::Sink(_)) => Status::WriteFault,
    }
}

/// Encodes a WAV, frame by frame.
pub fn encode<S: Source, O: Sink, N: Sink>(
    alloc: Global,
    options: Options,
    input: &mut S,
    output: &mut O,
    report: &mut N,
) -> Status
    requires { AreOptions options }
    ensures told { (bytes : List ℕ) → S.left input.old ≡ Some bytes → EncodeLeaves options result bytes
        (world S.left S.faults O.held O.faults N.held N.faults input.old output.old report.old)
        (world S.left S.faults O.held O.faults N.held N.faults input.new output.new report.new) }
    ensures cause { (bytes : List ℕ) → S.left input.old ≡ Some bytes → EncodeHasCause options result bytes }
    ensures not_usage { result ≢ Status.Usage }
    ensures kept { result ≡ Status.NoMemory → (output.new ≡ output.old) × (report.new ≡ report.old) }
    ensures most_read { (bytes : List ℕ) → S.left input.old ≡ Some bytes → TakesAtMost bytes (limit + 1) (S.left input.new) }
    ensures rose { RoseFor result
        (world S.left S.faults O.held O.faults N.held N.faults input.old output.old report.old)
        (world S.left S.faults O.held O.faults N.held N.faults input.new output.new report.new) }
    ensures never_falls { NeverFalls
        (world S.left S.faults O.held O.faults N.held N.faults input.old output.old report.old)
        (world S.left S.faults O.held O.faults N.held N.faults input.new output.new report.new) }
{
    let head = match WavHead::read(input, LIMIT) {
        Ok(head) => head,
        Err(fault) => return unread(fault),
    };
    let mut encoder = match Encoder::new(alloc, options, &head) {
        Ok(encoder) => encoder,
        Err(fault) => return denied(fault),
    };
    let Ok(mut work) = open(alloc) else {
        return Status::NoMemory;
    };
    let end = frames(&head, &mut encoder, &mut work, input, output, report);
    ended(end)
}
