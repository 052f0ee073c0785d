//! Trees, node by node.
ghost use Rattle.std.specs.Prelude.{◌≡◌, ◌∷◌, []};
ghost use Rattle.ac_cert_text.specs.TreeText.{closed_letter, full_letter, tree_text};
ghost use Rattle.ac_cert_print.specs.Pages.{page, Wrote};

use crate::pen::Pen;
use ac_base::Part;
use ac_claim::Tree;
use ac_io::Sink;

/// The letter of a node closed by a part.
fn closed_letter(part: Part) -> u8
    ensures { result ≡ closed_letter part }
{
    match part {
        Part::Front => b'f',
        Part::Total => b't',
        Part::Last => b'l',
    }
}

/// The letter of a full node.
fn full_letter(part: Part) -> u8
    ensures { result ≡ full_letter part }
{
    match part {
        Part::Front => b'F',
        Part::Total => b'T',
        Part::Last => b'L',
    }
}

/// Writes an item of a tree, with a space before it.
fn item<O: Sink>(pen: &mut Pen, out: &mut O, letter: u8)
    ensures { Wrote (32 ∷ letter ∷ []) (page O.held O.faults pen.old out.old) (page O.held O.faults pen.new out.new) }
{
    pen.put(out, b' ');
    pen.put(out, letter);
}

/// Writes a tree.
pub fn tree<O: Sink>(pen: &mut Pen, out: &mut O, node: &Tree)
    ensures { Wrote (tree_text node.now) (page O.held O.faults pen.old out.old) (page O.held O.faults pen.new out.new) }
{
    match node {
        Tree::Closed(part) => item(pen, out, closed_letter(*part)),
        Tree::Full(part) => item(pen, out, full_letter(*part)),
        Tree::Split(trees) => {
            item(pen, out, b'(');
            for child in trees.as_slice() {
                tree(pen, out, child);
            }
            item(pen, out, b')');
        }
    }
}
