//! The lines of the raw exponents.
ghost use Rattle.ac_cert_text.specs.Codec.{Shows, Gives, each};
ghost use Rattle.ac_cert_text.specs.Text.{fields_of, bin, row, raw_line, raw_lines, raws};

use crate::cursor::Cursor;
use crate::fault::Fault;
use ac_base::{Shape, Span};
use ac_expo::RawExps;

static ZEROS: RawExps = RawExps {
    e: [[[0; 256]; 6]; 7],
};

/// Reads the entry of a bin, which is 0 outside the span.
#[tactic(auto, unfolding(crate::specs::Text::bin, crate::specs::Codec::slot))]
fn bin(cursor: &mut Cursor, span: &Span, k: usize) -> Result<u8, Fault>
    ensures { Gives result cursor.new.rest.now ((bin span.now k).read cursor.old.rest.now) }
{
    if k < usize::from(span.start) || k >= usize::from(span.end) {
        return Ok(0);
    }
    let end = if k + 1 == usize::from(span.end) {
        b'\n'
    } else {
        b' '
    };
    cursor.small(end)
}

/// Reads the entries of the bins of a span.
fn row(cursor: &mut Cursor, span: &Span) -> Result<[u8; 256], Fault>
    ensures { Gives result cursor.new.rest.now ((row span.now).read cursor.old.rest.now) }
{
    let mut row = [0; 256];
    for k in 0..256usize {
        row[k] = bin(cursor, span, k)?;
    }
    Ok(row)
}

/// Reads the line of a coded channel and a block.
#[tactic(auto, unfolding(crate::specs::Text::raw_line, crate::specs::Codec::after))]
fn raw_line(cursor: &mut Cursor, span: &Span, c: u8, b: u8) -> Result<[u8; 256], Fault>
    ensures { Gives result cursor.new.rest.now ((raw_line span.now c b).read cursor.old.rest.now) }
{
    cursor.word(b"raw ")?;
    cursor.place(u32::from(c))?;
    cursor.word(b" ")?;
    cursor.place(u32::from(b))?;
    cursor.word(b" ")?;
    row(cursor, span)
}

/// Reads the lines of the six blocks of a coded channel.
#[tactic(auto, unfolding(crate::specs::Codec::each, crate::specs::Codec::cons, crate::specs::Codec::absent))]
fn blocks(cursor: &mut Cursor, span: &Span, c: u8) -> Result<[[u8; 256]; 6], Fault>
    ensures { Gives result cursor.new.rest.now ((each 6 0 (raw_line span.now c)).read cursor.old.rest.now) }
{
    let row_0 = raw_line(cursor, span, c, 0)?;
    let row_1 = raw_line(cursor, span, c, 1)?;
    let row_2 = raw_line(cursor, span, c, 2)?;
    let row_3 = raw_line(cursor, span, c, 3)?;
    let row_4 = raw_line(cursor, span, c, 4)?;
    let row_5 = raw_line(cursor, span, c, 5)?;
    Ok([row_0, row_1, row_2, row_3, row_4, row_5])
}

/// Reads the lines of a channel, which has none where it isn't coded.
#[tactic(auto, unfolding(crate::specs::Text::raw_lines, crate::specs::Codec::slot))]
fn raw_lines(cursor: &mut Cursor, shape: &Shape, c: u8) -> Result<[[u8; 256]; 6], Fault>
    ensures { Gives result cursor.new.rest.now ((raw_lines (fields_of shape.now) c).read cursor.old.rest.now) }
{
    if c < shape.coded() {
        blocks(cursor, &shape.span(c), c)
    } else {
        Ok([[0; 256]; 6])
    }
}

/// Reads the raw exponents.
pub fn raws(cursor: &mut Cursor, shape: &Shape) -> Result<RawExps, Fault>
    ensures { Shows (λ raw. raw.e) result cursor.new.rest.now ((raws (fields_of shape.now)).read cursor.old.rest.now) }
{
    let zeros = &ZEROS;
    let mut raw = *zeros;
    for c in 0..7usize {
        let next = raw_lines(cursor, shape, c as u8)?;
        raw.e[c] = next;
    }
    Ok(raw)
}
