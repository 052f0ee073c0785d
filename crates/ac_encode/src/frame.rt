//! One frame of a sound.
ghost use Rattle.std.specs.Prelude.{◌≡◌, ℕ, ◌+◌, ◌^◌, ◌<◌, ◌≤◌, [], length, take, slice_index_or, IfErr};
ghost use Rattle.ac_bits.specs.Bits.{frame_bytes};
ghost use Rattle.ac_enc.specs.Frame.{IsFrame};
ghost use Rattle.ac_encode.specs.Sound.{Sound};
ghost use Rattle.ac_encode.specs.Stream.{places};
ghost use Rattle.ac_world.specs.World.{sinks, SinksNeverFall};
ghost use Rattle.ac_encode.specs.Frames.{FrameLeaves, AreLast, AreOwn, RowsFit, StandsAt};
ghost use Rattle.ac_world.specs.Emits.{RoseAt};

use crate::emit::emit;
use crate::known::depends;
use crate::work::Work;
use ac_bits::FRAME_BYTES;
use ac_enc::{Encoder, FrameDone};
use ac_io::Sink;
use ac_world::Broken;

/// A row has the samples of a frame.
fn row_law(row: &[i32; 1536])
    ensures { length row.now ≡ 1536 }
{
    let _ = row;
}

/// Each row has the samples of a frame.
fn rows_law(rows: &[[i32; 1536]; 6])
    ensures { (c : ℕ) → c < 6 → length (slice_index_or rows.now c []) ≡ 1536 }
{
    row_law(&rows[0]);
    row_law(&rows[1]);
    row_law(&rows[2]);
    row_law(&rows[3]);
    row_law(&rows[4]);
    row_law(&rows[5]);
}

/// The next frame, of its samples in the rows.
fn encode(encoder: &mut Encoder, rows: &[[i32; 1536]; 6], out: &mut [u8; FRAME_BYTES]) -> FrameDone
    requires few { encoder.old.frames < 2 ^ 32 }
    requires stands { StandsAt encoder.old.options encoder.old.layout encoder.old.frames encoder.old }
    requires rows { RowsFit encoder.old.layout rows.now }
    ensures count { result.size ≤ frame_bytes }
    ensures value { (s : Sound) → s.layout ≡ encoder.old.layout → AreLast s encoder.old.frames encoder.old.last
        → AreOwn s encoder.old.frames rows.now
        → IsFrame encoder.old.options encoder.old.layout encoder.old.frames (places s encoder.old.frames) result.plan
        (take result.size out.new) × AreLast s (encoder.old.frames + 1) encoder.new.last }
    ensures next { StandsAt encoder.old.options encoder.old.layout (encoder.old.frames + 1) encoder.new }
{
    depends();
    rows_law(rows);
    encoder.frame(rows, out)
}

/// Encodes, writes and reports frame `i`, of the samples in the rows.
///
/// # Errors
///
/// Which sink failed.
pub fn frame<O: Sink, N: Sink>(
    i: u32,
    encoder: &mut Encoder,
    work: &mut Work,
    output: &mut O,
    report: &mut N,
) -> Result<(), Broken>
    requires number { encoder.old.frames ≡ i }
    requires stands { StandsAt encoder.old.options encoder.old.layout i encoder.old }
    requires rows { RowsFit encoder.old.layout work.old.rows }
    ensures told { (s : Sound) → s.layout ≡ encoder.old.layout → AreLast s i encoder.old.last → AreOwn s i work.old.rows
        → FrameLeaves encoder.old.options s i result (sinks O.held O.faults N.held N.faults output.old report.old)
        (sinks O.held O.faults N.held N.faults output.new report.new) × AreLast s (i + 1) encoder.new.last }
    ensures next { StandsAt encoder.old.options encoder.old.layout (i + 1) encoder.new }
    ensures rose { IfErr result (λ broken. RoseAt broken
        (sinks O.held O.faults N.held N.faults output.old report.old) (sinks O.held O.faults N.held N.faults output.new report.new)) }
    ensures never_falls { SinksNeverFall
        (sinks O.held O.faults N.held N.faults output.old report.old) (sinks O.held O.faults N.held N.faults output.new report.new) }
{
    let done = encode(encoder, &work.rows, &mut work.bytes);
    emit(i, &work.bytes[..done.size], &done.plan, output, report)
}
