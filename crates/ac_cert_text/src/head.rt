//! The lines of the shape, the claim and the top.
ghost use Rattle.ac_cert_text.specs.Codec.{Shows, Gives, number, flag, pair};
ghost use Rattle.ac_cert_text.specs.Text.{couple, fields_of, fields, shape_line, claim, top};

use crate::cursor::Cursor;
use crate::fault::Fault;
use ac_base::Shape;

/// The fields of a shape: fscod, acmod, lfe, chbwcod, the coupling and the words.
type Fields = (u8, (u8, (bool, (u8, (Option<(u8, u8)>, u16)))));

/// Reads the two codes of a coupling.
#[tactic(auto, unfolding(crate::specs::Codec::pair))]
fn codes(cursor: &mut Cursor) -> Result<(u8, u8), Fault>
    ensures { Gives result cursor.new.rest.now ((pair (number 256 32) (λ _. number 256 32)).read cursor.old.rest.now) }
{
    let begin = cursor.small(b' ')?;
    let end = cursor.small(b' ')?;
    Ok((begin, end))
}

/// Reads `- -`, or the two codes of a coupling.
#[tactic(auto, unfolding(crate::specs::Text::couple, crate::specs::Codec::fork, crate::specs::Codec::before, crate::specs::Codec::absent, crate::specs::Codec::present))]
fn couple(cursor: &mut Cursor) -> Result<Option<(u8, u8)>, Fault>
    ensures { Gives result cursor.new.rest.now (couple.read cursor.old.rest.now) }
{
    if cursor.begins(b'-') {
        cursor.word(b"- - ")?;
        return Ok(None);
    }
    let codes = codes(cursor)?;
    Ok(Some(codes))
}

/// Reads the fields of a shape.
#[tactic(auto, unfolding(crate::specs::Text::fields, crate::specs::Codec::pair))]
fn fields(cursor: &mut Cursor) -> Result<Fields, Fault>
    ensures { Gives result cursor.new.rest.now (fields.read cursor.old.rest.now) }
{
    let fscod = cursor.small(b' ')?;
    let acmod = cursor.small(b' ')?;
    let lfe = cursor.flag(b' ')?;
    let bw = cursor.small(b' ')?;
    let couple = couple(cursor)?;
    let words = cursor.medium(b'\n')?;
    Ok((fscod, (acmod, (lfe, (bw, (couple, words))))))
}

/// Reads the line of the shape.
#[tactic(auto, unfolding(crate::specs::Text::shape_line, crate::specs::Codec::after, crate::specs::Codec::tested))]
pub fn shape_line(cursor: &mut Cursor) -> Result<Shape, Fault>
    ensures { Shows fields_of result cursor.new.rest.now (shape_line.read cursor.old.rest.now) }
{
    cursor.word(b"shape ")?;
    let here = cursor.rest;
    let (fscod, (acmod, (lfe, (bw, (couple, words))))) = fields(cursor)?;
    match Shape::new(fscod, acmod, lfe, bw, couple, words) {
        Some(shape) => Ok(shape),
        None => {
            cursor.rest = here;
            Err(Fault::Bad)
        }
    }
}

/// Reads the line of the claim: its offset and its upper.
#[tactic(auto, unfolding(crate::specs::Text::claim, crate::specs::Codec::after, crate::specs::Codec::pair))]
pub fn claim(cursor: &mut Cursor) -> Result<(u16, u16), Fault>
    ensures { Gives result cursor.new.rest.now (claim.read cursor.old.rest.now) }
{
    cursor.word(b"claim ")?;
    let offset = cursor.medium(b' ')?;
    let upper = cursor.medium(b'\n')?;
    Ok((offset, upper))
}

/// Reads the line of the top.
#[tactic(auto, unfolding(crate::specs::Text::top, crate::specs::Codec::after))]
pub fn top(cursor: &mut Cursor) -> Result<u16, Fault>
    ensures { Gives result cursor.new.rest.now (top.read cursor.old.rest.now) }
{
    cursor.word(b"top ")?;
    cursor.medium(b'\n')
}
