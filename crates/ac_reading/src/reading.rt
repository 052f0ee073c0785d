//! A whole frame.
ghost use Rattle.std.specs.Prelude.{◌≡◌, ◌<◌, ◌≤◌, ◌-◌, ◌+◌, ◌*◌, [], length, take, Ok, Err, OnOk, IfErr};
ghost use Rattle.ac_bits.specs.Bits.{bits_of};
ghost use Rattle.ac_base.specs.Sizes.{tail_bits};
ghost use Rattle.ac_rows.specs.HeadRows.{head_fields};
ghost use Rattle.ac_rows.specs.BlockRows.{AreLawful};
ghost use Rattle.ac_record.specs.Empty.{empty_codes};
ghost use Rattle.ac_record.specs.declared.codes.FrameFault.{FrameFault};
ghost use Rattle.ac_record.specs.Readings.{IsReading};
ghost use Rattle.ac_record.specs.Faults.{BlockRefuses, BlocksRefuse, FieldsRefuse, IsFault};
ghost use Rattle.ac_reading.specs.Begun.{IsOpen, Keeps, IsRead, IsBegun};
ghost use Rattle.ac_reading.specs.Framed.{AreFields, Reading};
ghost use Rattle.ac_reading.specs.Kept.{KeepsExponents, KeepsPointers};

use crate::channels::coded;
use crate::exponents::put_exponents;
use crate::framing::framed;
use crate::kept::Kept;
use crate::mantissas::read_codes;
use crate::pointers::put_pointers;
use ac_base::TAIL_BITS;
use ac_bits::BitSource;
use ac_codec::Refused;
use ac_record::{FrameCodes, FrameFault};
use ac_rows::Head;
use ac_syntax::{filled, read_block, read_head, spans};

/// Reads block `b`, before which the earlier blocks stand in `out`.
fn read_one(
    head: &Head,
    b: usize,
    kept: &mut Kept,
    source: &mut BitSource,
    out: &mut FrameCodes,
) -> Result<(), Refused>
    requires head { head_fields.Lawful head.now }
    requires place { b < 6 }
    requires earlier { AreLawful head.now (take b out.old.block) }
    requires blank { IsOpen b out.old }
    requires exponents { KeepsExponents head.now b kept.old (take b out.old.block) out.old.exps }
    requires pointers { KeepsPointers head.now b kept.old out.old.exps out.old.baps }
    ensures exponents { OnOk result (KeepsExponents head.now (b + 1) kept.new (take (b + 1) out.new.block) out.new.exps) }
    ensures pointers { OnOk result (KeepsPointers head.now (b + 1) kept.new out.new.exps out.new.baps) }
    ensures found { OnOk result (IsRead head.now b out.old out.new source.old source.new) }
    ensures cause { IfErr result (λ e. BlockRefuses head.now (take b out.old.block) source.old e) }
    ensures rest { Keeps b out.old out.new }
{
    let block = read_block(head, &out.block[..b], source)?;
    let whole = filled(head, &out.block[..b], &block);
    let spans = spans(head, &whole);
    put_exponents(
        head,
        &out.block[..b],
        &block,
        &whole,
        &spans,
        b,
        kept,
        &mut out.exps,
    );
    put_pointers(head, &whole, &spans, b, kept, &out.exps, &mut out.baps);
    match read_codes(head, &whole, &spans, b, &out.baps, source, &mut out.codes) {
        Ok(()) => {
            out.block[b] = block;
            *kept = Kept {
                count: coded(head, &whole),
                block: whole,
                spans,
            };
            Ok(())
        }
        Err(e) => Err(e),
    }
}

/// Reads the six blocks.
fn read_blocks(head: &Head, source: &mut BitSource, out: &mut FrameCodes) -> Result<(), Refused>
    requires head { head_fields.Lawful head.now }
    requires empty { out.old ≡ empty_codes }
    ensures found { OnOk result (IsBegun head.now 6 out.new source.old source.new) }
    ensures cause { IfErr result (λ e. BlocksRefuse head.now [] 6 source.old e) }
{
    let mut kept = Kept::nothing(&out.block[0]);
    for b in 0..6 {
        match read_one(head, b, &mut kept, source, out) {
            Ok(()) => {}
            Err(e) => return Err(e),
        }
    }
    Ok(())
}

/// Reads the fields and mantissas of a whole frame.
fn read_fields(frame: &[u8], out: &mut FrameCodes) -> Result<(), Refused>
    requires least { 18 ≤ 8 * length frame.now }
    requires most { length frame.now ≤ 3840 }
    requires empty { out.old ≡ empty_codes }
    ensures found { OnOk result (AreFields (take (8 * length frame.now - tail_bits) (bits_of frame.now)) out.new) }
    ensures cause { IfErr result (λ e. FieldsRefuse (take (8 * length frame.now - tail_bits) (bits_of frame.now)) e) }
{
    let mut source = BitSource::new(frame, 8 * frame.len() as u32 - TAIL_BITS);
    let head = read_head(&mut source)?;
    read_blocks(&head, &mut source, out)?;
    out.head = head;
    Ok(())
}

/// Reads a frame into an empty place.
fn read_frame(bytes: &[u8], out: &mut FrameCodes) -> Result<(), FrameFault>
    requires { out.old ≡ empty_codes }
    ensures value { OnOk result (IsReading bytes.now out.new) }
    ensures cause { IfErr result (λ fault. IsFault bytes.now fault) }
{
    let size = framed(bytes)?;
    match read_fields(&bytes[..size], out) {
        Ok(()) => Ok(()),
        Err(e) => Err(FrameFault::Field(e)),
    }
}

/// Reads the frame with which these bytes begin into `out`: its fields, exponents, bit allocation pointers and codes. Bytes
/// behind it aren't read.
///
/// # Errors
///
/// The first of these that is there, and then `out` is `FrameCodes::empty()`: `Short` where there are fewer than six bytes; `Field`
/// where these say no size; `Short` where there are fewer bytes than they say; `BadCrc1` and `BadCrc2` with the remainder, where it
/// isn't 0, over the first five eighths and over all of the frame without its synchronisation word (A/52 7.10.1); `Field` with the
/// refusal of the first field, group of exponents or group of mantissas, in the order of the bits, that no frame has there.
pub fn read(bytes: &[u8], out: &mut FrameCodes) -> Result<(), FrameFault>
    ensures value { OnOk result (IsReading bytes.now out.new) }
    ensures complete { (f : Reading) → IsReading bytes.now f → result ≡ Ok tt }
    ensures cause { IfErr result (λ fault. IsFault bytes.now fault) }
    ensures refused { (fault : FrameFault) → IsFault bytes.now fault → result ≡ Err fault }
    ensures kept { IfErr result (λ _. out.new ≡ empty_codes) }
{
    *out = FrameCodes::empty();
    match read_frame(bytes, out) {
        Ok(()) => Ok(()),
        Err(fault) => {
            *out = FrameCodes::empty();
            Err(fault)
        }
    }
}
