//! What is looked at before the fields of a frame: its size, and its CRC words.
ghost use Rattle.std.specs.Prelude.{◌≡◌, ◌≤◌, ◌*◌, length, IfOk, IfErr, OnOk};
ghost use Rattle.ac_record.specs.Faults.{IsFault};
ghost use Rattle.ac_reading.specs.Framed.{IsSized, IsFramed, IsWhole, IsTorn};

use crate::sizing::size;
use ac_base::front_words;
use ac_crc::remainder;
use ac_record::FrameFault;

/// The bytes of the frame with which these bytes begin.
fn frame_size(bytes: &[u8]) -> Result<usize, FrameFault>
    ensures value { IfOk result (λ n. IsSized bytes.now n) }
    ensures cause { IfErr result (λ fault. IsFault bytes.now fault) }
{
    if bytes.len() < 6 {
        return Err(FrameFault::Short {
            have: bytes.len() as u32,
        });
    }
    let first = [bytes[0], bytes[1], bytes[2], bytes[3], bytes[4], bytes[5]];
    match size(&first) {
        Ok(size) if bytes.len() < usize::from(size) => Err(FrameFault::Short {
            have: bytes.len() as u32,
        }),
        Ok(size) => Ok(usize::from(size)),
        Err(e) => Err(FrameFault::Field(e)),
    }
}

/// The CRC words of a whole frame.
fn crc(frame: &[u8], words: u16) -> Result<(), FrameFault>
    requires long { length frame.now ≡ 2 * words }
    requires least { 64 ≤ words }
    ensures value { OnOk result (IsWhole frame.now words) }
    ensures cause { IfErr result (λ fault. IsTorn frame.now words fault) }
{
    let front = 2 * usize::from(front_words(words));
    let first = remainder(&frame[2..front]);
    if first != 0 {
        return Err(FrameFault::BadCrc1(first));
    }
    let second = remainder(&frame[2..]);
    if second != 0 {
        return Err(FrameFault::BadCrc2(second));
    }
    Ok(())
}

/// The bytes of the frame with which these bytes begin, whose CRC words are whole: how many they are.
pub fn framed(bytes: &[u8]) -> Result<usize, FrameFault>
    ensures value { IfOk result (λ n. IsFramed bytes.now n) }
    ensures cause { IfErr result (λ fault. IsFault bytes.now fault) }
{
    let size = frame_size(bytes)?;
    crc(&bytes[..size], (size / 2) as u16)?;
    Ok(size)
}
