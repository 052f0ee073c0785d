//! Whole frames packed.
ghost use Rattle.std.specs.Prelude.{◌≡◌, ◌*◌, take, drop};
ghost use Rattle.ac_record.specs.Frames.{FrameCodes};
ghost use Rattle.ac_record.specs.Readings.{IsReading};
ghost use Rattle.ac_sent.specs.Asked.{IsQuantised};
ghost use Rattle.ac_sent.specs.Laws.{IsBack};
ghost use Rattle.ac_sent.specs.Packed.{IsPacked};

use ac_bits::FRAME_BYTES;
use ac_sent::Quantised;

/// Writes the frame of these values to the front of `out`, and answers its bytes, twice the words of its shape (A/52 5.3).
///
/// Each reading of the frame gives back what was handed in: fields, exponents, pointers and codes. What `out` holds behind the
/// frame stays.
pub fn pack(q: &Quantised, out: &mut [u8; FRAME_BYTES]) -> usize
    requires asked { IsQuantised q.now }
    ensures size { result ≡ 2 * q.now.shape.words }
    ensures frame { IsPacked q.now (take result out.new) }
    ensures back { (f : FrameCodes) → IsReading (take result out.new) f → IsBack q.now f }
    ensures rest { drop result out.new ≡ drop result out.old }
{
    ac_packing::pack(q, out)
}
