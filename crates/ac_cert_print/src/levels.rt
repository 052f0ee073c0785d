//! The lines of the offsets.
ghost use Rattle.std.specs.Prelude.{◌+◌, ◌≤◌, length, option_map};
ghost use Rattle.ac_cert_text.specs.Text.{fields_of, tree_line, level, levels, over, offset_of, offsets_of, pots_of};
ghost use Rattle.ac_cert_print.specs.Pages.{page, Wrote};

use crate::pen::Pen;
use crate::pots::pots;
use crate::trees::tree;
use ac_base::Shape;
use ac_bound::Pots;
use ac_claim::{Level, Tree};
use ac_io::Sink;

/// Writes the line of a tree.
fn tree_line<O: Sink>(pen: &mut Pen, out: &mut O, root: &Tree)
    ensures { Wrote (tree_line.spell root.now) (page O.held O.faults pen.old out.old) (page O.held O.faults pen.new out.new) }
{
    pen.word(out, b"tree");
    tree(pen, out, root);
    pen.word(out, b"\n");
}

/// Writes the lines of an offset.
fn level<O: Sink>(pen: &mut Pen, out: &mut O, shape: &Shape, t: u64, lines: &Level)
    ensures { Wrote ((level (fields_of shape.now) t).spell (offset_of lines.now))
        (page O.held O.faults pen.old out.old) (page O.held O.faults pen.new out.new) }
{
    pen.word(out, b"offset ");
    pen.digits(out, t);
    pen.word(out, b"\n");
    pots(pen, out, shape, &lines.pots);
    tree_line(pen, out, &lines.tree);
}

/// Writes the lines of so many offsets at most, down to 0, and the last line.
fn levels<O: Sink>(pen: &mut Pen, out: &mut O, shape: &Shape, count: u64, all: &[Level])
    requires { length all.now ≤ count }
    ensures { Wrote ((levels (fields_of shape.now) count).spell (offsets_of all.now))
        (page O.held O.faults pen.old out.old) (page O.held O.faults pen.new out.new) }
{
    let mut left = count;
    for lines in all {
        left -= 1;
        level(pen, out, shape, left, lines);
    }
    pen.word(out, b"end\n");
}

/// Writes the potentials above the top, if they are there, and the offsets from the top downwards.
pub fn over<O: Sink>(
    pen: &mut Pen,
    out: &mut O,
    shape: &Shape,
    top: u16,
    above: &Option<Pots>,
    all: &[Level],
)
    requires { length all.now ≤ top + 1 }
    ensures { Wrote ((over (fields_of shape.now) top).spell (option_map pots_of above.now, offsets_of all.now))
        (page O.held O.faults pen.old out.old) (page O.held O.faults pen.new out.new) }
{
    let count = u64::from(top) + 1;
    match above {
        None => levels(pen, out, shape, count, all),
        Some(potentials) => {
            pots(pen, out, shape, potentials);
            levels(pen, out, shape, count, all);
        }
    }
}
