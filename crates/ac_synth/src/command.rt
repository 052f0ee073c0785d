//! The command synth.
ghost use Rattle.std.specs.Prelude.{◌≡◌, ◌⊎◌, ◌≤◌};
ghost use Rattle.ac_io.specs.Outside.{Rose};
ghost use Rattle.ac_status.specs.declared.status.Status.TheVariants.{WriteFault, NoMemory};
ghost use Rattle.ac_synth.specs.Synth.{SynthLeaves};
ghost use Rattle.ac_world.specs.World.{sinks, SinksNeverFall};

use crate::encoder::encoder;
use crate::frames::all_frames;
use crate::lines::tell;
use crate::work::open;
use ac_dec::Decoder;
use ac_io::Sink;
use ac_noise::Noise;
use ac_status::Status;
use std::alloc::Global;

/// Encodes the generated sound of this seed that fills so many frames, writes each frame by one write and decodes it again, and
/// reports the plans and the sum of the magnitudes of all samples decoded by one line.
pub fn synth<O: Sink, N: Sink>(
    alloc: Global,
    seed: u64,
    frames: u32,
    output: &mut O,
    report: &mut N,
) -> Status
    requires least { 1 ≤ frames }
    requires most { frames ≤ 200 }
    ensures told { SynthLeaves seed frames result (sinks O.held O.faults N.held N.faults output.old report.old)
        (sinks O.held O.faults N.held N.faults output.new report.new) }
    ensures rose { result ≡ Status.WriteFault
        → Rose (O.faults output.old) (O.faults output.new) ⊎ Rose (N.faults report.old) (N.faults report.new) }
    ensures kept { result ≡ Status.NoMemory → (output.new ≡ output.old) × (report.new ≡ report.old) }
    ensures never_falls { SinksNeverFall (sinks O.held O.faults N.held N.faults output.old report.old)
        (sinks O.held O.faults N.held N.faults output.new report.new) }
{
    let Ok(mut encoder) = encoder(alloc) else {
        return Status::NoMemory;
    };
    let Ok(mut decoder) = Decoder::new(alloc) else {
        return Status::NoMemory;
    };
    let Ok(mut work) = open(alloc) else {
        return Status::NoMemory;
    };
    let mut noise = Noise::new(seed, frames);
    let Ok(tally) = all_frames(
        frames,
        &mut noise,
        &mut encoder,
        &mut decoder,
        &mut work,
        output,
    ) else {
        return Status::WriteFault;
    };
    let Ok(()) = tell(frames, &tally, report) else {
        return Status::WriteFault;
    };
    Status::Ok
}
