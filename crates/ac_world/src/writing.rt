//! A piece of the output and its line, written.
ghost use Rattle.std.specs.Prelude.{IfErr};
ghost use Rattle.ac_world.specs.World.{sinks, SinksNeverFall};
ghost use Rattle.ac_world.specs.Emits.{Emits, RoseAt};

use ac_io::Sink;

/// Which sink failed.
#[derive(Clone, Copy, Debug, PartialEq, Eq)]
pub enum Broken {
    /// The output.
    Output,
    /// The report.
    Report,
}

/// Writes a piece of the output by one write, and then its line of the report by one.
///
/// # Errors
///
/// Which of the two writes failed; the output took a front of the piece, or the report a front of the line.
pub fn emit<O: Sink, N: Sink>(
    piece: &[u8],
    line: &[u8],
    output: &mut O,
    report: &mut N,
) -> Result<(), Broken>
    ensures told { Emits piece.now line.now result
        (sinks O.held O.faults N.held N.faults output.old report.old) (sinks O.held O.faults N.held N.faults output.new report.new) }
    ensures rose { IfErr result (λ broken. RoseAt broken
        (sinks O.held O.faults N.held N.faults output.old report.old) (sinks O.held O.faults N.held N.faults output.new report.new)) }
    ensures never_falls { SinksNeverFall
        (sinks O.held O.faults N.held N.faults output.old report.old) (sinks O.held O.faults N.held N.faults output.new report.new) }
{
    if output.write(piece).is_err() {
        return Err(Broken::Output);
    }
    if report.write(line).is_err() {
        return Err(Broken::Report);
    }
    Ok(())
}
