//! Tests of a tree.
ghost use Rattle.std.specs.Prelude.{◌≡◌, ◌≤◌, ◌<◌, List, length};
ghost use Rattle.ac_expo.specs.Raw.{channels};
ghost use Rattle.ac_bound.specs.Bounds.{IsPartial};
ghost use Rattle.ac_bound.specs.Ways.{potential};
ghost use Rattle.ac_seek.specs.declared.step.Step.{Step};
ghost use Rattle.ac_seek.specs.Games.{IsPath, channel_of};
ghost use Rattle.ac_seek.specs.Words.{game_of};
ghost use Rattle.ac_claim.specs.Tests.{result_of};
ghost use Rattle.ac_claim.specs.Trees.{nexts, closed_no, exact_sixths, full_no, count_no, tree_no};
ghost use Rattle.ac_claim.specs.Walks.{IsBasis, Stands};

use crate::basis::{Basis, bits_in, number, room};
use crate::heads::given;
use crate::no::No;
use crate::path::Path;
use crate::potentials::kinds;
use crate::tree::Tree;
use crate::walk::{add, first, sibling};
use crate::words::{assignment, codes};
use ac_base::Part;
use ac_bound::{Partial, lower};

/// How many runs may come next in a channel that is coded.
fn want(basis: &Basis, partial: &Partial) -> u32
    requires basis { IsBasis basis.now }
    requires channel { partial.now.done < channels basis.now.table.now.shape }
    requires boundary { partial.now.at < 6 }
    ensures value { (path : List Step) → Stands basis.now.table.now path partial.now → result ≡ length (nexts basis.now.table.now path) }
    ensures bound { result ≤ 18 }
{
    let each = kinds(basis.shape, partial.done);
    u32::from((6 - partial.at) * each)
}

/// Whether the lower bound of a partial assignment in a part is over the room.
fn closed_test(basis: &Basis, partial: &Partial, part: Part) -> Result<(), No>
    requires basis { IsBasis basis.now }
    requires partial { IsPartial basis.now.shape.now partial.now }
    ensures { (path : List Step) → Stands basis.now.table.now path partial.now
        → result ≡ result_of (closed_no basis.now.table.now (potential basis.now.pots.now.p) part path) }
{
    let bound = lower(basis.shape, basis.pots, partial)[number(part)];
    let room = room(basis.shape, part);
    if bound > room {
        return Ok(());
    }
    Err(No::Loose {
        offset: basis.offset,
        part,
        bound,
        room,
    })
}

/// The exact bits of a whole assignment in a part, in sixths of a bit.
fn exact(basis: &Basis, path: &Path, part: Part) -> u64
    requires basis { IsBasis basis.now }
    requires path { IsPath (game_of basis.now.table.now) path.now }
    requires whole { channels basis.now.table.now.shape ≤ channel_of path.now }
    ensures { result ≡ exact_sixths basis.now.table.now part path.now }
{
    let flat = codes(path);
    let whole = assignment(&flat);
    let bits = basis.table.parts(&whole);
    6 * u64::from(bits_in(&bits, part))
}

/// Whether a partial assignment is whole, and its exact bits in a part are over the room.
fn full_test(basis: &Basis, path: &Path, partial: &Partial, part: Part) -> Result<(), No>
    requires basis { IsBasis basis.now }
    requires stands { Stands basis.now.table.now path.now partial.now }
    ensures { result ≡ result_of (full_no basis.now.table.now part path.now) }
{
    if partial.done < basis.shape.coded() {
        return Err(No::Children {
            offset: basis.offset,
            have: 0,
            want: want(basis, partial),
        });
    }
    let bound = exact(basis, path, part);
    let room = room(basis.shape, part);
    if bound > room {
        return Ok(());
    }
    Err(No::Loose {
        offset: basis.offset,
        part,
        bound,
        room,
    })
}

/// Whether there are as many children as runs may come next.
fn count_test(basis: &Basis, partial: &Partial, count: usize) -> Result<(), No>
    requires basis { IsBasis basis.now }
    requires boundary { partial.now.at < 6 }
    ensures { (path : List Step) → Stands basis.now.table.now path partial.now
        → result ≡ result_of (count_no basis.now.table.now count path) }
{
    let want = if partial.done < basis.shape.coded() {
        want(basis, partial)
    } else {
        0
    };
    let whole = partial.done >= basis.shape.coded();
    if whole || count != want as usize {
        return Err(No::Children {
            offset: basis.offset,
            have: given(count),
            want,
        });
    }
    Ok(())
}

/// The first fault of a tree at a partial assignment, in preorder.
pub fn tree_test(basis: &Basis, path: &mut Path, partial: &Partial, tree: &Tree) -> Result<(), No>
    requires basis { IsBasis basis.now }
    requires stands { Stands basis.now.table.now path.old partial.now }
    ensures value { result ≡ result_of (tree_no basis.now.table.now (potential basis.now.pots.now.p) tree.now path.old) }
    ensures path { path.new ≡ path.old }
{
    match tree {
        Tree::Closed(part) => closed_test(basis, partial, *part),
        Tree::Full(part) => full_test(basis, path, partial, *part),
        Tree::Split(trees) => {
            count_test(basis, partial, trees.len())?;
            let mut next = Some(first(partial));
            for child in trees.as_slice() {
                let Some(step) = next else {
                    return Ok(());
                };
                let inner = add(basis.table, path, partial, step);
                let answer = tree_test(basis, path, &inner, child);
                let _ = path.pop();
                answer?;
                next = sibling(basis.shape, basis.table, &step);
            }
            Ok(())
        }
    }
}
