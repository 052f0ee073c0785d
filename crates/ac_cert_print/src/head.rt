//! The lines of the shape, the claim and the top.
ghost use Rattle.ac_cert_text.specs.Codec.{flag};
ghost use Rattle.ac_cert_text.specs.Text.{couple, fields_of, shape_line, claim, top};
ghost use Rattle.ac_cert_print.specs.Pages.{page, Wrote};

use crate::pen::Pen;
use ac_base::Shape;
use ac_io::Sink;

/// Writes `- -`, or the two codes of a coupling.
fn couple<O: Sink>(pen: &mut Pen, out: &mut O, codes: Option<(u8, u8)>)
    ensures { Wrote (couple.spell codes) (page O.held O.faults pen.old out.old) (page O.held O.faults pen.new out.new) }
{
    match codes {
        None => pen.word(out, b"- - "),
        Some(pair) => {
            pen.small(out, pair.0, b' ');
            pen.small(out, pair.1, b' ');
        }
    }
}

/// Writes 0 or 1.
fn flag<O: Sink>(pen: &mut Pen, out: &mut O, set: bool)
    ensures { Wrote ((flag 32).spell set) (page O.held O.faults pen.old out.old) (page O.held O.faults pen.new out.new) }
{
    if set {
        pen.word(out, b"1 ");
    } else {
        pen.word(out, b"0 ");
    }
}

/// Writes the line of the shape.
pub fn shape_line<O: Sink>(pen: &mut Pen, out: &mut O, shape: &Shape)
    ensures { Wrote (shape_line.spell (fields_of shape.now)) (page O.held O.faults pen.old out.old) (page O.held O.faults pen.new out.new) }
{
    pen.word(out, b"shape ");
    pen.small(out, shape.fscod, b' ');
    pen.small(out, shape.acmod, b' ');
    flag(pen, out, shape.lfe);
    pen.small(out, shape.bw, b' ');
    couple(pen, out, shape.couple);
    pen.medium(out, shape.words, b'\n');
}

/// Writes the line of the claim.
pub fn claim<O: Sink>(pen: &mut Pen, out: &mut O, offset: u16, upper: u16)
    ensures { Wrote (claim.spell (offset, upper)) (page O.held O.faults pen.old out.old) (page O.held O.faults pen.new out.new) }
{
    pen.word(out, b"claim ");
    pen.medium(out, offset, b' ');
    pen.medium(out, upper, b'\n');
}

/// Writes the line of the top.
pub fn top<O: Sink>(pen: &mut Pen, out: &mut O, offset: u16)
    ensures { Wrote (top.spell offset) (page O.held O.faults pen.old out.old) (page O.held O.faults pen.new out.new) }
{
    pen.word(out, b"top ");
    pen.medium(out, offset, b'\n');
}
