//! The top call.
ghost use Rattle.std.specs.Prelude.{◌≡◌, ◌≢◌, ℕ, ◌+◌, ◌≤◌, List, Some, map, string_bytes};
ghost use Rattle.ac_base.specs.declared.sizes.Part.{Part};
ghost use Rattle.ac_io.specs.Within.{TakesAtMost};
ghost use Rattle.ac_reading.specs.Framed.{Reading};
ghost use Rattle.ac_record.specs.declared.codes.FrameFault.{FrameFault};
ghost use Rattle.ac_riff.specs.declared.fault.WavKind.{WavKind};
ghost use Rattle.ac_riff.specs.declared.head.WavHead.{WavHead};
ghost use Rattle.ac_words.specs.Grammar.{InGrammar};
ghost use Rattle.ac_words.specs.Lawful.{IsWithinBounds};
ghost use Rattle.ac_words.specs.declared.meaning.Options.{Options};
ghost use Rattle.ac_decode.specs.Stream.{IsEnd, IsBadStream, IsTooLong as IsLongStream};
ghost use Rattle.ac_encode.specs.Input.{IsInput, IsRefused, IsTooLong, IsRateTooLow};
ghost use Rattle.ac_world.specs.Limit.{limit};
ghost use Rattle.ac_status.specs.Lines.{status_line};
ghost use Rattle.ac_status.specs.Rises.{RoseFor};
ghost use Rattle.ac_app.specs.Decoded.{AnswersStream};
ghost use Rattle.ac_app.specs.Run.{CommandLeaves, CommandHasCause, JobLeaves, HasCause, AsksEncode, AsksDecode};
ghost use Rattle.ac_app.specs.Run.{Tail, answer_of, RunLeaves, IsDone};
ghost use Rattle.ac_world.specs.World.{told, world, NeverFalls};
ghost use Rattle.ac_status.specs.declared.status.Status.TheVariants.{Ok, Usage, BadWav, RateTooLow, BadStream, ReadFault, WriteFault, NoMemory, TooLong};

use crate::decoding::decode_all;
use ac_encode::encode;
use ac_io::{Sink, Source};
use ac_status::{Status, status_line};
use ac_synth::synth;
use ac_words::{Command, WordsFault, command};
use std::alloc::Global;

/// Does what a command asks for.
fn follow<S: Source, O: Sink, N: Sink>(
    alloc: Global,
    asked: Command,
    input: &mut S,
    output: &mut O,
    report: &mut N,
) -> Status
    requires { IsWithinBounds asked }
    ensures told { (bytes : List ℕ) → S.left input.old ≡ Some bytes → CommandLeaves asked result bytes
        (world S.left S.faults O.held O.faults N.held N.faults input.old output.old report.old)
        (world S.left S.faults O.held O.faults N.held N.faults input.new output.new report.new) }
    ensures cause { (bytes : List ℕ) → S.left input.old ≡ Some bytes → CommandHasCause asked result bytes }
    ensures answers { (bytes : List ℕ) → S.left input.old ≡ Some bytes → asked ≡ Command.Decode → AnswersStream bytes result }
    ensures not_usage { result ≢ Status.Usage }
    ensures kept { result ≡ Status.NoMemory → (output.new ≡ output.old) × (report.new ≡ report.old) }
    ensures most_read { (bytes : List ℕ) → S.left input.old ≡ Some bytes → TakesAtMost bytes (limit + 1) (S.left input.new) }
    ensures rose { RoseFor result
        (world S.left S.faults O.held O.faults N.held N.faults input.old output.old report.old)
        (world S.left S.faults O.held O.faults N.held N.faults input.new output.new report.new) }
    ensures never_falls { NeverFalls
        (world S.left S.faults O.held O.faults N.held N.faults input.old output.old report.old)
        (world S.left S.faults O.held O.faults N.held N.faults input.new output.new report.new) }
{
    match asked {
        Command::Encode(options) => encode(alloc, options, input, output, report),
        Command::Decode => decode_all(alloc, input, output, report),
        Command::Synth { seed, frames } => synth(alloc, seed, frames, output, report),
    }
}

/// Does what the words ask for, but for the status line.
fn job<S: Source, O: Sink, N: Sink>(
    alloc: Global,
    words: &[String],
    input: &mut S,
    output: &mut O,
    report: &mut N,
) -> Status
    ensures told { (bytes : List ℕ) → S.left input.old ≡ Some bytes → JobLeaves (map string_bytes words.now) result bytes
        (world S.left S.faults O.held O.faults N.held N.faults input.old output.old report.old)
        (world S.left S.faults O.held O.faults N.held N.faults input.new output.new report.new) }
    ensures cause { (bytes : List ℕ) → S.left input.old ≡ Some bytes → HasCause (map string_bytes words.now) result bytes }
    ensures answers { (bytes : List ℕ) → S.left input.old ≡ Some bytes → AsksDecode (map string_bytes words.now)
        → AnswersStream bytes result }
    ensures usage { result ≡ Status.Usage → InGrammar (map string_bytes words.now) → ⊥ }
    ensures outside { (InGrammar (map string_bytes words.now) → ⊥) → result ≢ Status.NoMemory → result ≡ Status.Usage }
    ensures untouched { result ≡ Status.Usage → (input.new ≡ input.old) × (output.new ≡ output.old) × (report.new ≡ report.old) }
    ensures kept { result ≡ Status.NoMemory → (output.new ≡ output.old) × (report.new ≡ report.old) }
    ensures most_read { (bytes : List ℕ) → S.left input.old ≡ Some bytes → TakesAtMost bytes (limit + 1) (S.left input.new) }
    ensures rose { RoseFor result
        (world S.left S.faults O.held O.faults N.held N.faults input.old output.old report.old)
        (world S.left S.faults O.held O.faults N.held N.faults input.new output.new report.new) }
    ensures never_falls { NeverFalls
        (world S.left S.faults O.held O.faults N.held N.faults input.old output.old report.old)
        (world S.left S.faults O.held O.faults N.held N.faults input.new output.new report.new) }
{
    match command(alloc, words) {
        Ok(asked) => follow(alloc, asked, input, output, report),
        Err(WordsFault::Usage) => Status::Usage,
        Err(WordsFault::NoMemory) => Status::NoMemory,
    }
}

/// Adds the status line, and answers whether it was taken whole.
fn tell<N: Sink>(status: Status, report: &mut N) -> bool
    ensures line { Tail result (told N.held N.faults report.old) (told N.held N.faults report.new) (status_line status) }
    ensures never_falls { N.faults report.old ≤ N.faults report.new }
{
    report.write(status_line(status).as_bytes()).is_ok()
}

/// A status line that wasn't taken whole turns Ok into WriteFault.
fn answer(status: Status, whole: bool) -> Status
    ensures { result ≡ answer_of status whole }
{
    match status {
        Status::Ok if !whole => Status::WriteFault,
        other => other,
    }
}

/// Does all that the program does: reads the command in `words`, which are the arguments behind the program's
/// own name, does it over the input, the output and the report, and ends the report with the status line.
///
/// Where the source tells its bytes, each answer's cause stands in them, and so does what was written to each sink
/// that tells its own, whatever the other tells. `ReadFault` and `WriteFault` come only where a count of faults rose,
/// and `NoMemory` is the one answer without a cause; it comes before any sample is read.
pub fn run<S: Source, O: Sink, N: Sink>(
    alloc: Global,
    words: &[String],
    input: &mut S,
    output: &mut O,
    report: &mut N,
) -> Status
    // What every answer leaves: of the source, in the output and in the report.
    ensures told { (bytes : List ℕ) → S.left input.old ≡ Some bytes → RunLeaves (map string_bytes words.now) result bytes
        (world S.left S.faults O.held O.faults N.held N.faults input.old output.old report.old)
        (world S.left S.faults O.held O.faults N.held N.faults input.new output.new report.new) }
    // Ok of encode: the output gained the frames of the data, the report their lines and the status line, and the source lost the
    // bytes up to the end of its data. Ok of decode: the input was frames, which the source lost, and the output gained their sound.
    // Ok of synth: the output gained the frames of the generated sound, and the report its line and the status line.
    ensures ok { (bytes : List ℕ) → S.left input.old ≡ Some bytes → result ≡ Status.Ok → IsDone (map string_bytes words.now) bytes
        (world S.left S.faults O.held O.faults N.held N.faults input.old output.old report.old)
        (world S.left S.faults O.held O.faults N.held N.faults input.new output.new report.new) }
    // Why each answer came.
    ensures cause { (bytes : List ℕ) → S.left input.old ≡ Some bytes → HasCause (map string_bytes words.now) result bytes }
    // At most one byte past the limit is taken of the input, whatever the answer.
    ensures most_read { (bytes : List ℕ) → S.left input.old ≡ Some bytes → TakesAtMost bytes (limit + 1) (S.left input.new) }
    // Usage exactly outside the grammar, unless memory was wanting, and then nothing is read and nothing but the status line written.
    ensures usage { result ≡ Status.Usage → InGrammar (map string_bytes words.now) → ⊥ }
    ensures outside { (InGrammar (map string_bytes words.now) → ⊥) → result ≢ Status.NoMemory → result ≡ Status.Usage }
    ensures untouched { result ≡ Status.Usage → (input.new ≡ input.old) × (output.new ≡ output.old) }
    // Where memory was wanting the output is as it was, whatever the objects tell.
    ensures kept { result ≡ Status.NoMemory → output.new ≡ output.old }
    // A refusal of the bytes comes where they ask for it, unless something failed first.
    ensures refused { (bytes : List ℕ) (o : Options) (kind : WavKind) (place : ℕ) → S.left input.old ≡ Some bytes
        → AsksEncode (map string_bytes words.now) o → IsRefused o bytes kind place → result ≢ Status.ReadFault → result ≢ Status.WriteFault
        → result ≢ Status.NoMemory → result ≡ Status.BadWav kind place }
    // A rate that is too low is refused where the head asks for more, behind it.
    ensures too_low { (bytes : List ℕ) (o : Options) (part : Part) (needed room : ℕ) → S.left input.old ≡ Some bytes
        → AsksEncode (map string_bytes words.now) o → IsRateTooLow o bytes part needed room → result ≢ Status.ReadFault
        → result ≢ Status.WriteFault → result ≢ Status.NoMemory → result ≡ Status.RateTooLow part needed room }
    // The byte behind the limit is refused where it is needed and there.
    ensures too_long { (bytes : List ℕ) (o : Options) → S.left input.old ≡ Some bytes
        → AsksEncode (map string_bytes words.now) o → IsTooLong o bytes → result ≢ Status.ReadFault → result ≢ Status.WriteFault
        → result ≢ Status.NoMemory → result ≡ Status.TooLong limit }
    // A WAV within the limit that the rate is enough for is encoded, unless something failed.
    ensures complete { (bytes : List ℕ) (o : Options) (head : WavHead) → S.left input.old ≡ Some bytes
        → AsksEncode (map string_bytes words.now) o → IsInput o bytes head → result ≢ Status.ReadFault → result ≢ Status.WriteFault
        → result ≢ Status.NoMemory → result ≡ Status.Ok }
    // A stream of frames of one kind within the limit is decoded, unless something failed.
    ensures decoded { (bytes : List ℕ) (frames : List Reading) → S.left input.old ≡ Some bytes → AsksDecode (map string_bytes words.now)
        → IsEnd bytes frames → result ≢ Status.ReadFault → result ≢ Status.WriteFault → result ≢ Status.NoMemory → result ≡ Status.Ok }
    // The first frame that is refused is named, with its fault.
    ensures bad_stream { (bytes : List ℕ) (frame : ℕ) (fault : FrameFault) → S.left input.old ≡ Some bytes
        → AsksDecode (map string_bytes words.now) → IsBadStream bytes frame fault → result ≢ Status.ReadFault
        → result ≢ Status.WriteFault → result ≢ Status.NoMemory → result ≡ Status.BadStream frame fault }
    // So is the byte behind the limit, where a frame needs it and it is there.
    ensures long_stream { (bytes : List ℕ) → S.left input.old ≡ Some bytes → AsksDecode (map string_bytes words.now)
        → IsLongStream bytes → result ≢ Status.ReadFault → result ≢ Status.WriteFault → result ≢ Status.NoMemory
        → result ≡ Status.TooLong limit }
    // A fault of reading or of writing comes only where a count of faults rose.
    ensures rose { RoseFor result
        (world S.left S.faults O.held O.faults N.held N.faults input.old output.old report.old)
        (world S.left S.faults O.held O.faults N.held N.faults input.new output.new report.new) }
    ensures never_falls { NeverFalls
        (world S.left S.faults O.held O.faults N.held N.faults input.old output.old report.old)
        (world S.left S.faults O.held O.faults N.held N.faults input.new output.new report.new) }
{
    let status = job(alloc, words, input, output, report);
    let whole = tell(status, report);
    answer(status, whole)
}
