//! What the tree of an offset is made by, and its leaves.
ghost use Rattle.std.specs.Prelude.{◌≡◌, ◌<◌, ◌≤◌, ◌+◌, ◌*◌, ℕ, List, [], ◌∷◌, false, true, slice_index, MatchOption};
ghost use Rattle.ac_base.specs.Fit.{rooms_of};
ghost use Rattle.ac_base.specs.Words.{IsWord};
ghost use Rattle.ac_expo.specs.Raw.{channels};
ghost use Rattle.ac_cost.specs.Parts.{parts_at};
ghost use Rattle.ac_cost.specs.Sixths.{part_of};
ghost use Rattle.ac_bound.specs.Ways.{potential};
ghost use Rattle.ac_seek.specs.declared.step.Step.{Step};
ghost use Rattle.ac_seek.specs.Trees.{over, closed};
ghost use Rattle.ac_seek.specs.Walks.{row_of};
ghost use Rattle.ac_seek.specs.Words.{game_of, words_of};
ghost use Rattle.ac_claim.specs.Potentials.{number_of};
ghost use Rattle.ac_trees.specs.Nodes.{IsAt, IsUnfit};
ghost use Rattle.ac_trees.specs.Leaves.{IsOffset, IsOverIn, AreWithin, AreWithinRooms};

use crate::node::Node;
use ac_base::{Part, Parts, Shape, rooms};
use ac_bound::{Pots, lower};
use ac_cost::RunTable;
use ac_expo::{Assign, Word, word_at};

/// What runs cost at an offset, and the least costs of all ways on.
#[derive(Drop)]
pub struct Offset<'a> {
    pub shape: &'a Shape,
    pub table: &'a RunTable,
    pub pots: &'a Pots,
}

/// The first part, in the order front, total, last, whose sixths are over its room.
fn first_over(shape: &Shape, sixths: &[u64; 3]) -> Option<Part>
    ensures { MatchOption result (AreWithin shape.now (slice_index sixths.now))
        (λ part. IsOverIn shape.now (slice_index sixths.now) (number_of part)) }
{
    let rooms = rooms(shape.words);
    if sixths[0] > 6 * u64::from(rooms.front) {
        Some(Part::Front)
    } else if sixths[1] > 6 * u64::from(rooms.total) {
        Some(Part::Total)
    } else if sixths[2] > 6 * u64::from(rooms.last) {
        Some(Part::Last)
    } else {
        None
    }
}

/// The first part, in the same order, whose lower bound is over its room.
pub fn closing(offset: &Offset, node: &Node) -> Option<Part>
    requires offset { IsOffset offset.now }
    requires unfit { IsUnfit offset.now.table.now node.now }
    ensures { let g = game_of offset.now.table.now in
        let pot = potential offset.now.pots.now.p in
        (path : List Step) → IsAt offset.now.table.now path node.now
        → MatchOption result (closed g pot path ≡ false) (λ part. over g pot (number_of part) path ≡ true) }
{
    first_over(
        offset.shape,
        &lower(offset.shape, offset.pots, &node.partial),
    )
}

/// The word of a channel.
fn word(codes: &[u8; 42], c: usize) -> Word
    requires channel { c < 7 }
    requires word { IsWord (row_of codes.now c) }
    ensures { result ≡ row_of codes.now c }
{
    let at = 6 * c;
    let word = [
        codes[at],
        codes[at + 1],
        codes[at + 2],
        codes[at + 3],
        codes[at + 4],
        codes[at + 5],
    ];
    Word::new(word).unwrap_or(word_at(0))
}

/// The words of seven lists of codes.
fn assignment(codes: &[u8; 42]) -> Assign
    requires { (c : ℕ) → c < 7 → IsWord (row_of codes.now c) }
    ensures { let row = row_of codes.now in
        result.w ≡ row 0 ∷ row 1 ∷ row 2 ∷ row 3 ∷ row 4 ∷ row 5 ∷ row 6 ∷ [] }
{
    Assign {
        w: [
            word(codes, 0),
            word(codes, 1),
            word(codes, 2),
            word(codes, 3),
            word(codes, 4),
            word(codes, 5),
            word(codes, 6),
        ],
    }
}

/// The bits of the parts of a whole assignment.
fn whole_parts(offset: &Offset, node: &Node) -> Parts
    requires offset { IsOffset offset.now }
    requires unfit { IsUnfit offset.now.table.now node.now }
    requires whole { channels offset.now.table.now.shape ≤ node.now.partial.done }
    ensures { let v = offset.now.table.now in
        (path : List Step) → IsAt v path node.now → result ≡ parts_at v.shape v.raw v.t (words_of path) }
{
    offset.table.parts(&assignment(&node.codes))
}

/// The first part of these, in the same order, that is over its room, where they don't fit.
fn first_unfit(parts: &Parts, rooms: &Parts) -> Part
    requires { AreWithinRooms parts.now rooms.now → ⊥ }
    ensures { part_of rooms.now (number_of result) < part_of parts.now (number_of result) }
{
    if parts.front > rooms.front {
        Part::Front
    } else if parts.total > rooms.total {
        Part::Total
    } else {
        Part::Last
    }
}

/// The first part of a whole assignment, in the same order, that is over its room, where the assignment doesn't fit.
pub fn unfit(offset: &Offset, node: &Node) -> Part
    requires offset { IsOffset offset.now }
    requires unfit { IsUnfit offset.now.table.now node.now }
    requires whole { channels offset.now.table.now.shape ≤ node.now.partial.done }
    ensures { let v = offset.now.table.now in
        (path : List Step) → IsAt v path node.now
        → part_of (rooms_of v.shape.words) (number_of result) < part_of (parts_at v.shape v.raw v.t (words_of path)) (number_of result) }
{
    first_unfit(&whole_parts(offset, node), &rooms(offset.shape.words))
}
