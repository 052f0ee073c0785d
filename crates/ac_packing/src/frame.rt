//! The frame, whole.
ghost use Rattle.std.specs.Prelude.{◌≡◌, ◌+◌, ◌*◌, ◌≤◌, ◌++◌, length, take, drop};
ghost use Rattle.ac_bits.specs.Bits.{bits, bits_of, frame_bytes};
ghost use Rattle.ac_crc.specs.Remainder.{IsRemainder};
ghost use Rattle.ac_sent.specs.Asked.{IsQuantised, IsSizeCode};
ghost use Rattle.ac_sent.specs.Fields.{parts_at};
ghost use Rattle.ac_sent.specs.Packed.{IsPacked};
ghost use Rattle.ac_sent.specs.Padding.{to_skip};
ghost use Rattle.ac_packing.specs.Listing.{AreListed};

use crate::body::write_body;
use crate::mantissas::{MOST, list_blocks};
use crate::padding::bits_to_skip;
use crate::parts::parts;
use crate::pointers::allocate_frame;
use ac_base::front_words;
use ac_bits::FRAME_BYTES;
use ac_crc::{leading_word, trailing_word};
use ac_mant::Coded;
use ac_sent::{Quantised, frame_code};

/// The first word of each frame (A/52 5.4.1.1).
const SYNC_WORD: u16 = 0x0b77;

/// Puts bytes into `out` from `at` on.
fn place(out: &mut [u8; FRAME_BYTES], at: usize, bytes: &[u8])
    requires { at + length bytes.now ≤ frame_bytes }
    ensures front { take (at + length bytes.now) out.new ≡ take at out.old ++ bytes.now }
    ensures rest { drop (at + length bytes.now) out.new ≡ drop (at + length bytes.now) out.old }
{
    out[at..at + bytes.len()].copy_from_slice(bytes);
}

/// The two bytes of a word, the high one first.
fn word_bytes(word: u16) -> [u8; 2]
    ensures bits { bits_of result ≡ bits word 16 }
    ensures len { length result ≡ 2 }
{
    [(word >> 8) as u8, (word % 256) as u8]
}

/// The bytes behind crc1 up to a place.
fn behind_crc1(bytes: &[u8; FRAME_BYTES], to: usize) -> &[u8]
    requires least { 4 ≤ to }
    requires most { to ≤ frame_bytes }
    ensures value { result.now ≡ drop 4 (take to bytes.now) }
    ensures len { length result.now + 4 ≡ to }
{
    &bytes[4..to]
}

/// Writes the whole frame that has these bytes between crc1 and crc2, and answers crc2.
fn assemble(crc1: u16, body: &[u8], out: &mut [u8; FRAME_BYTES]) -> u16
    requires { length body.now + 6 ≤ frame_bytes }
    ensures frame { bits_of (take (length body.now + 6) out.new)
        ≡ bits 0x0B77 16 ++ (bits crc1 16 ++ (bits_of body.now ++ bits result 16)) }
    ensures whole { IsRemainder (bits crc1 16 ++ (bits_of body.now ++ bits result 16)) 0 }
    ensures rest { drop (length body.now + 6) out.new ≡ drop (length body.now + 6) out.old }
{
    let end = body.len() + 4;
    place(out, 0, &word_bytes(SYNC_WORD));
    place(out, 2, &word_bytes(crc1));
    place(out, 4, body);
    let crc2 = trailing_word(&out[2..end]);
    place(out, end, &word_bytes(crc2));
    crc2
}

/// Writes the frame with this frmsizecod, where the skip fields take `x` bits in all.
fn write_frame(
    q: &Quantised,
    code: u8,
    x: u32,
    lists: &[[Coded; MOST]; 6],
    counts: &[usize; 6],
    out: &mut [u8; FRAME_BYTES],
) -> usize
    requires asked { IsQuantised q.now }
    requires code { IsSizeCode q.now.shape.fscod q.now.shape.words code }
    requires skipped { x ≡ to_skip q.now.shape.words (parts_at q.now).total (parts_at q.now).last }
    requires listed { AreListed q.now 6 lists.now counts.now }
    ensures size { result ≡ 2 * q.now.shape.words }
    ensures frame { IsPacked q.now (take result out.new) }
    ensures rest { drop result out.new ≡ drop result out.old }
{
    let mut body = [0; FRAME_BYTES];
    let count = write_body(q, code, x, false, lists, counts, &mut body);
    let crc1 = leading_word(behind_crc1(&body, 2 * usize::from(front_words(q.shape.words))));
    if assemble(crc1, behind_crc1(&body, count - 2), out) != SYNC_WORD {
        return count;
    }
    write_body(q, code, x, true, lists, counts, &mut body);
    assemble(crc1, behind_crc1(&body, count - 2), out);
    count
}

/// Writes the frame of these values to the front of `out`, and answers its bytes, twice the words of its shape.
///
/// Block 0 sends each strategy, coordinate, flag and parameter; exponents go by the strategy codes. What the fields leave over
/// goes into skip fields of blocks 5 to 1, and into aux bits as far as the second CRC part has room. crcrsv is 0, or 1 where crc2
/// would else be the syncword (A/52 5.4.5.1). What `out` holds behind the frame stays.
pub fn pack(q: &Quantised, out: &mut [u8; FRAME_BYTES]) -> usize
    requires asked { IsQuantised q.now }
    ensures size { result ≡ 2 * q.now.shape.words }
    ensures frame { IsPacked q.now (take result out.new) }
    ensures rest { drop result out.new ≡ drop result out.old }
{
    let Some(code) = frame_code(q.shape.fscod, q.shape.words) else {
        return 0;
    };
    let mut baps = [[[0; 256]; 6]; 7];
    allocate_frame(q, &mut baps);
    let mut lists = [[Coded { bap: 0, code: 0 }; MOST]; 6];
    let counts = list_blocks(q, &baps, &mut lists);
    let (total, last) = parts(q, &lists, &counts);
    let x = bits_to_skip(q.shape.words, total, last);
    write_frame(q, code, x, &lists, &counts, out)
}
