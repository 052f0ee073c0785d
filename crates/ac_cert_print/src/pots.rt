//! The lines of potentials.
ghost use Rattle.std.specs.Prelude.{◌<◌};
ghost use Rattle.ac_cert_text.specs.Codec.{each};
ghost use Rattle.ac_cert_text.specs.Text.{fields_of, potential, pot_line, pot_lines, pots};
ghost use Rattle.ac_cert_print.specs.Pages.{page, Wrote};

use crate::pen::{Pen, end_at};
use ac_base::Shape;
use ac_bound::Pots;
use ac_io::Sink;

/// Writes the potential of a boundary.
fn potential<O: Sink>(pen: &mut Pen, out: &mut O, at: usize, entry: u32)
    requires { at < 6 }
    ensures { Wrote ((potential at).spell entry) (page O.held O.faults pen.old out.old) (page O.held O.faults pen.new out.new) }
{
    pen.large(out, entry, end_at(6, at));
}

/// Writes the potentials of the six boundaries.
fn potentials<O: Sink>(pen: &mut Pen, out: &mut O, entries: &[u32; 6])
    ensures { Wrote ((each 6 0 potential).spell entries.now) (page O.held O.faults pen.old out.old) (page O.held O.faults pen.new out.new) }
{
    for at in 0..6usize {
        potential(pen, out, at, entries[at]);
    }
}

/// Writes the line of a coded channel and a part.
fn pot_line<O: Sink>(pen: &mut Pen, out: &mut O, c: u8, part: u8, entries: &[u32; 6])
    ensures { Wrote ((pot_line c part).spell entries.now) (page O.held O.faults pen.old out.old) (page O.held O.faults pen.new out.new) }
{
    pen.word(out, b"pot ");
    pen.place(out, c);
    pen.word(out, b" ");
    pen.place(out, part);
    pen.word(out, b" ");
    potentials(pen, out, entries);
}

/// Writes the lines of a channel's parts.
fn parts<O: Sink>(pen: &mut Pen, out: &mut O, c: u8, rows: &[[u32; 6]; 3])
    ensures { Wrote ((each 3 0 (pot_line c)).spell rows.now) (page O.held O.faults pen.old out.old) (page O.held O.faults pen.new out.new) }
{
    for part in 0..3u8 {
        pot_line(pen, out, c, part, &rows[usize::from(part)]);
    }
}

/// Writes the lines of a channel, which has none where it isn't coded.
fn pot_lines<O: Sink>(pen: &mut Pen, out: &mut O, shape: &Shape, c: u8, rows: &[[u32; 6]; 3])
    ensures { Wrote ((pot_lines (fields_of shape.now) c).spell rows.now)
        (page O.held O.faults pen.old out.old) (page O.held O.faults pen.new out.new) }
{
    if c < shape.coded() {
        parts(pen, out, c, rows);
    }
}

/// Writes the potentials of an offset.
pub fn pots<O: Sink>(pen: &mut Pen, out: &mut O, shape: &Shape, all: &Pots)
    ensures { Wrote ((pots (fields_of shape.now)).spell all.now.p)
        (page O.held O.faults pen.old out.old) (page O.held O.faults pen.new out.new) }
{
    for c in 0..7u8 {
        pot_lines(pen, out, shape, c, &all.p[usize::from(c)]);
    }
}
