//! The lines of the strategy words.
ghost use Rattle.std.specs.Prelude.{◌<◌};
ghost use Rattle.ac_cert_text.specs.Codec.{each};
ghost use Rattle.ac_cert_text.specs.Text.{fields_of, code, word_line, word_at, words};
ghost use Rattle.ac_cert_print.specs.Pages.{page, Wrote};

use crate::pen::{Pen, end_at};
use ac_base::Shape;
use ac_expo::Word;
use ac_io::Sink;

/// Writes the code of a block.
fn code<O: Sink>(pen: &mut Pen, out: &mut O, b: usize, entry: u8)
    requires { b < 6 }
    ensures { Wrote ((code b).spell entry) (page O.held O.faults pen.old out.old) (page O.held O.faults pen.new out.new) }
{
    pen.small(out, entry, end_at(6, b));
}

/// Writes the codes of a word.
fn codes<O: Sink>(pen: &mut Pen, out: &mut O, word: &Word)
    ensures { Wrote ((each 6 0 code).spell word.now) (page O.held O.faults pen.old out.old) (page O.held O.faults pen.new out.new) }
{
    let entries = word.codes();
    for b in 0..6usize {
        code(pen, out, b, entries[b]);
    }
}

/// Writes the line of a coded channel.
fn word_line<O: Sink>(pen: &mut Pen, out: &mut O, c: u8, word: &Word)
    ensures { Wrote ((word_line c).spell word.now) (page O.held O.faults pen.old out.old) (page O.held O.faults pen.new out.new) }
{
    pen.word(out, b"word ");
    pen.place(out, c);
    pen.word(out, b" ");
    codes(pen, out, word);
}

/// Writes the line of a channel, which has none where it isn't coded.
fn word<O: Sink>(pen: &mut Pen, out: &mut O, shape: &Shape, c: u8, word: &Word)
    ensures { Wrote ((word_at (fields_of shape.now) c).spell word.now)
        (page O.held O.faults pen.old out.old) (page O.held O.faults pen.new out.new) }
{
    if c < shape.coded() {
        word_line(pen, out, c, word);
    }
}

/// Writes the words.
pub fn words<O: Sink>(pen: &mut Pen, out: &mut O, shape: &Shape, all: &[Word; 7])
    ensures { Wrote ((words (fields_of shape.now)).spell all.now)
        (page O.held O.faults pen.old out.old) (page O.held O.faults pen.new out.new) }
{
    for c in 0..7u8 {
        word(pen, out, shape, c, &all[usize::from(c)]);
    }
}
