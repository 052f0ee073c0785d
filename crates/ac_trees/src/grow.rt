//! The tree of an offset at which no assignment fits.
ghost use Rattle.std.specs.Prelude.{◌≡◌, List, IfOk, None};
ghost use Rattle.ac_bound.specs.Ways.{potential};
ghost use Rattle.ac_seek.specs.declared.step.Step.{Step};
ghost use Rattle.ac_claim.specs.Trees.{tree_no};
ghost use Rattle.ac_trees.specs.Nodes.{IsAt, IsUnfit};
ghost use Rattle.ac_trees.specs.Leaves.{IsOffset};

use crate::node::{Node, child, first, kinds, sibling};
use crate::offset::{Offset, closing, unfit};
use ac_claim::Tree;
use sqlite_items::Items;
use std::alloc::{AllocError, Global};

/// Why nothing that begins with the runs of a node fits.
pub fn build(alloc: Global, offset: &Offset, node: &Node) -> Result<Tree, AllocError>
    requires offset { IsOffset offset.now }
    requires unfit { IsUnfit offset.now.table.now node.now }
    ensures { let v = offset.now.table.now in
        IfOk result (λ tree. (path : List Step) → IsAt v path node.now → tree_no v (potential offset.now.pots.now.p) tree path ≡ None) }
{
    if let Some(part) = closing(offset, node) {
        return Ok(Tree::Closed(part));
    }
    let partial = &node.partial;
    if partial.done >= offset.shape.coded() {
        return Ok(Tree::Full(unfit(offset, node)));
    }
    let kinds = kinds(offset.shape, partial.done);
    let mut trees = Items::new(alloc);
    let mut next = Some(first(partial));
    while let Some(step) = next {
        let tree = build(alloc, offset, &child(offset.table, node, &step))?;
        trees.push(tree)?;
        next = sibling(offset.table, kinds, &step);
    }
    Ok(Tree::Split(trees))
}
