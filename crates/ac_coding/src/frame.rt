//! The frame.
ghost use Rattle.std.specs.Prelude.{◌≡◌, ◌<◌, ◌≤◌, ◌*◌, ℕ, take, drop};
ghost use Rattle.ac_base.specs.Shape.{full_of, subbands};
ghost use Rattle.ac_expo.specs.Raw.{AreSmall, AreRaw};
ghost use Rattle.ac_cost.specs.Runs.{IsAssignmentOf};
ghost use Rattle.ac_cost.specs.Parts.{FitsAt};
ghost use Rattle.ac_record.specs.Frames.{FrameCodes};
ghost use Rattle.ac_record.specs.Readings.{IsReading};
ghost use Rattle.ac_sent.specs.Asked.{IsSizeCode};
ghost use Rattle.ac_sent.specs.Fields.{coordinate_at};
ghost use Rattle.ac_sent.specs.Laws.{IsBack};
ghost use Rattle.ac_energy.specs.Coefficients.{entry};
ghost use Rattle.ac_coding.specs.Values.{values_of, IsCoded};

use crate::codes::write_codes;
use crate::exponents::write_exponents;
use ac_base::Coefs;
use ac_bits::FRAME_BYTES;
use ac_expo::{Assign, RawExps};
use ac_packing::pack;
use ac_sent::Quantised;

/// Puts together the values of a frame in `q`, whose shape, rematrix flags and coupling coordinates stand.
fn quantise_frame(coefs: &Coefs, raw: &RawExps, t: u16, assign: &Assign, q: &mut Quantised)
    requires small { AreSmall q.old.shape coefs.now.c }
    requires raw { AreRaw q.old.shape coefs.now.c raw.now.e }
    requires offset { t ≤ 1023 }
    requires assigned { IsAssignmentOf q.old.shape assign.now.w }
    ensures { q.new ≡ values_of q.old.shape (entry coefs.now.c) t assign.now q.old.remat q.old.coords }
{
    write_exponents(&q.shape, raw, assign, &mut q.exps);
    write_codes(&q.shape, coefs, assign, &q.exps, t, &mut q.codes);
    q.t = t;
    q.assign = *assign;
}

/// Puts together the values of a frame in `q`, whose shape, rematrix flags and coupling coordinates stand, and writes the frame to the
/// front of `out`; answers its bytes, twice the words of its shape.
///
/// `coefs` are coefficients of scale 2^24 below 2^24 in magnitude, `raw` their raw exponents. The exponents of each run are the greatest
/// that its strategy can spell, each code is that of its coefficient by its exponent and its pointer at the offset
/// t = 16 csnroffst + fsnroffst (A/52 7.2, 7.3, 8.2.7 to 8.2.12). The assignment fits at the offset. What `out` holds behind the frame
/// stays.
pub fn code_frame(
    coefs: &Coefs,
    raw: &RawExps,
    t: u16,
    assign: &Assign,
    q: &mut Quantised,
    out: &mut [u8; FRAME_BYTES],
) -> usize
    requires small { AreSmall q.old.shape coefs.now.c }
    requires raw { AreRaw q.old.shape coefs.now.c raw.now.e }
    requires offset { t ≤ 1023 }
    requires assigned { IsAssignmentOf q.old.shape assign.now.w }
    requires fits { FitsAt q.old.shape raw.now.e t assign.now.w }
    requires sized { (code : ℕ) × IsSizeCode q.old.shape.fscod q.old.shape.words code }
    requires coordinates { (i k : ℕ) → i < full_of q.old.shape.acmod → k < subbands q.old.shape.couple
        → ((coordinate_at q.old i k).exp ≤ 15) × ((coordinate_at q.old i k).mant ≤ 15) }
    ensures size { result ≡ 2 * q.old.shape.words }
    ensures frame { IsCoded q.old.shape (entry coefs.now.c) t assign.now q.old.remat q.old.coords (take result out.new) }
    ensures back { (f : FrameCodes) → IsReading (take result out.new) f
        → IsBack (values_of q.old.shape (entry coefs.now.c) t assign.now q.old.remat q.old.coords) f }
    ensures rest { drop result out.new ≡ drop result out.old }
    ensures same_shape { q.new.shape ≡ q.old.shape }
    ensures same_flags { q.new.remat ≡ q.old.remat }
    ensures same_coordinates { q.new.coords ≡ q.old.coords }
{
    quantise_frame(coefs, raw, t, assign, q);
    pack(q, out)
}
