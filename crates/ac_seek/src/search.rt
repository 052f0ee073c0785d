//! The search of one offset.
ghost use Rattle.std.specs.Prelude.{◌≡◌, ◌≤◌};
ghost use Rattle.ac_bound.specs.Ways.{ArePots, potential};
ghost use Rattle.ac_seek.specs.Answers.{Answers};
ghost use Rattle.ac_seek.specs.Boards.{IsBoard};
ghost use Rattle.ac_seek.specs.Walks.{IsFound};

use crate::answer::Seek;
use crate::board::Board;
use crate::known::Known;
use crate::path::Path;
use crate::walk::{Turn, look};
use ac_base::Shape;
use ac_bound::{Partial, Pots};
use ac_cost::RunCosts;

/// Searches the tree with at most so many nodes.
fn walk<C: RunCosts>(board: &Board<C>, nodes: u32) -> Seek
    requires { IsBoard C.offset board.now }
    ensures { IsFound (C.offset board.now.table.now) nodes result }
{
    let mut known = Known::new(board.table);
    let mut path = Path::new();
    let mut partial = Partial {
        done: 0,
        at: 0,
        spent: [0; 3],
    };
    for before in 0..nodes {
        match look(board, &mut known, &mut path, &mut partial) {
            Turn::Found(assign) => return Seek::Fits(assign),
            Turn::Ended => return Seek::Never { used: before + 1 },
            Turn::Goes => {}
        }
    }
    Seek::Spent
}

/// Searches the tree of one offset, by what runs cost there and by its potentials, with at most so many nodes, for an assignment that fits.
pub fn seek<C: RunCosts>(shape: &Shape, table: &C, pots: &Pots, nodes: u32) -> Seek
    requires same { (C.offset table.now).shape ≡ shape.now }
    requires potentials { ArePots (C.offset table.now) (potential pots.now.p) }
    requires nodes { nodes ≤ 10000000 }
    ensures value { Answers (C.offset table.now) nodes result }
{
    walk(&Board::of(shape, table, pots), nodes)
}
