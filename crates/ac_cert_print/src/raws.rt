//! The lines of the raw exponents.
ghost use Rattle.std.specs.Prelude.{◌≡◌, ◌<◌};
ghost use Rattle.ac_cert_text.specs.Codec.{number, each};
ghost use Rattle.ac_cert_text.specs.Text.{fields_of, end_at, is_in, bin, row, raw_line, raw_lines, raws};
ghost use Rattle.ac_cert_print.specs.Pages.{page, Wrote};

use crate::pen::{Pen, end_at};
use ac_base::{Shape, Span};
use ac_expo::RawExps;
use ac_io::Sink;

/// Whether a bin is in a span.
fn is_in(span: &Span, k: usize) -> bool
    ensures { result ≡ is_in span.now k }
{
    usize::from(span.start) <= k && k < usize::from(span.end)
}

/// Writes the number of a bin in a span.
fn entry<O: Sink>(pen: &mut Pen, out: &mut O, span: &Span, k: usize, entry: u8)
    requires { k < span.now.end }
    ensures { Wrote ((number 256 (end_at span.now.end k)).spell entry)
        (page O.held O.faults pen.old out.old) (page O.held O.faults pen.new out.new) }
{
    pen.small(out, entry, end_at(usize::from(span.end), k));
}

/// Writes the entry of a bin: none outside the span.
fn bin<O: Sink>(pen: &mut Pen, out: &mut O, span: &Span, k: usize, value: u8)
    ensures { Wrote ((bin span.now k).spell value) (page O.held O.faults pen.old out.old) (page O.held O.faults pen.new out.new) }
{
    let inside = is_in(span, k);
    if inside {
        entry(pen, out, span, k, value);
    }
}

/// Writes the entries of the bins of a span.
fn row<O: Sink>(pen: &mut Pen, out: &mut O, span: &Span, entries: &[u8; 256])
    ensures { Wrote ((row span.now).spell entries.now) (page O.held O.faults pen.old out.old) (page O.held O.faults pen.new out.new) }
{
    for k in 0..256usize {
        bin(pen, out, span, k, entries[k]);
    }
}

/// Writes the line of a coded channel and a block.
fn raw_line<O: Sink>(pen: &mut Pen, out: &mut O, span: &Span, c: u8, b: u8, entries: &[u8; 256])
    ensures { Wrote ((raw_line span.now c b).spell entries.now)
        (page O.held O.faults pen.old out.old) (page O.held O.faults pen.new out.new) }
{
    pen.word(out, b"raw ");
    pen.place(out, c);
    pen.word(out, b" ");
    pen.place(out, b);
    pen.word(out, b" ");
    row(pen, out, span, entries);
}

/// Writes the lines of the six blocks of a coded channel.
fn blocks<O: Sink>(pen: &mut Pen, out: &mut O, span: &Span, c: u8, rows: &[[u8; 256]; 6])
    ensures { Wrote ((each 6 0 (raw_line span.now c)).spell rows.now)
        (page O.held O.faults pen.old out.old) (page O.held O.faults pen.new out.new) }
{
    for b in 0..6u8 {
        raw_line(pen, out, span, c, b, &rows[usize::from(b)]);
    }
}

/// Writes the lines of a channel, which has none where it isn't coded.
fn raw_lines<O: Sink>(pen: &mut Pen, out: &mut O, shape: &Shape, c: u8, rows: &[[u8; 256]; 6])
    ensures { Wrote ((raw_lines (fields_of shape.now) c).spell rows.now)
        (page O.held O.faults pen.old out.old) (page O.held O.faults pen.new out.new) }
{
    if c < shape.coded() {
        blocks(pen, out, &shape.span(c), c, rows);
    }
}

/// Writes the raw exponents.
pub fn raws<O: Sink>(pen: &mut Pen, out: &mut O, shape: &Shape, raw: &RawExps)
    ensures { Wrote ((raws (fields_of shape.now)).spell raw.now.e)
        (page O.held O.faults pen.old out.old) (page O.held O.faults pen.new out.new) }
{
    for c in 0..7u8 {
        raw_lines(pen, out, shape, c, &raw.e[usize::from(c)]);
    }
}
