//! A frame and its line, written.
ghost use Rattle.std.specs.Prelude.{length, IfErr};
ghost use Rattle.ac_encode.specs.Lines.{frame_line};
ghost use Rattle.ac_world.specs.Emits.{Emits, RoseAt};
ghost use Rattle.ac_world.specs.World.{sinks, SinksNeverFall};

use crate::lines;
use ac_io::Sink;
use ac_plan::Plan;
use ac_world::Broken;

/// Writes a frame by one write, and reports it and its plan by one.
///
/// # Errors
///
/// Which of the two writes failed; the output took a front of the frame, or the report a front of the line.
pub fn emit<O: Sink, N: Sink>(
    i: u32,
    frame: &[u8],
    plan: &Plan,
    output: &mut O,
    report: &mut N,
) -> Result<(), Broken>
    ensures told { Emits frame.now (frame_line i (length frame.now) plan.now) result
        (sinks O.held O.faults N.held N.faults output.old report.old) (sinks O.held O.faults N.held N.faults output.new report.new) }
    ensures rose { IfErr result (λ broken. RoseAt broken
        (sinks O.held O.faults N.held N.faults output.old report.old) (sinks O.held O.faults N.held N.faults output.new report.new)) }
    ensures never_falls { SinksNeverFall
        (sinks O.held O.faults N.held N.faults output.old report.old) (sinks O.held O.faults N.held N.faults output.new report.new) }
{
    let line = lines::frame_line(i, frame.len(), plan);
    ac_world::emit(frame, line.as_bytes(), output, report)
}
