//! The line of synth.
ghost use Rattle.std.specs.Prelude.{◌≡◌, ◌≤◌, OnOk, OnErr};
ghost use Rattle.ac_io.specs.Outside.{Rose, Adds, AddsFront};
ghost use Rattle.ac_synth.specs.Synth.{synth_line};

use crate::tally::Tally;
use ac_io::{Failed, Sink};
use ac_world::{Line, push_number};

/// The line of so many frames.
fn synth_line(frames: u32, tally: &Tally) -> Line
    ensures { result.bytes ≡ synth_line frames tally.now.best tally.now.bounded tally.now.sum }
{
    let mut line = Line::new();
    line.push_str("synth frames ");
    push_number(&mut line, u64::from(frames));
    line.push_str(" best ");
    push_number(&mut line, u64::from(tally.best));
    line.push_str(" bounded ");
    push_number(&mut line, u64::from(tally.bounded));
    line.push_str(" sum ");
    push_number(&mut line, tally.sum);
    line.push_str("\n");
    line
}

/// Reports so many frames by one write.
///
/// # Errors
///
/// `Failed` where the write failed; the report took a front of the line.
pub fn tell<N: Sink>(frames: u32, tally: &Tally, report: &mut N) -> Result<(), Failed>
    ensures adds { OnOk result (Adds (N.held report.old) (N.held report.new)
        (synth_line frames tally.now.best tally.now.bounded tally.now.sum)) }
    ensures front { OnErr result (AddsFront (N.held report.old) (N.held report.new)
        (synth_line frames tally.now.best tally.now.bounded tally.now.sum)) }
    ensures rose { OnErr result (Rose (N.faults report.old) (N.faults report.new)) }
    ensures never_falls { N.faults report.old ≤ N.faults report.new }
{
    let line = synth_line(frames, tally);
    report.write(line.as_bytes())
}
