//! Trees, item by item.
ghost use Rattle.std.specs.Prelude.{◌≡◌, ◌∷◌, ◌<◌, ℕ, List, [], reverse, IfOk, MatchOption, Option, Some, None, Ok, Err};
ghost use Rattle.ac_cert_text.specs.Codec.{Gives};
ghost use Rattle.ac_cert_text.specs.TreeText.{leaf_of, put, close, item, grow, tree, Steps};

use crate::cursor::Cursor;
use crate::fault::Fault;
use ac_base::Part;
use ac_claim::Tree;
use sqlite_items::Items;
use std::alloc::{AllocError, Global};

/// The leaf that a letter stands for.
fn leaf(byte: u8) -> Option<Tree>
    ensures { result ≡ leaf_of byte }
{
    match byte {
        b'f' => Some(Tree::Closed(Part::Front)),
        b't' => Some(Tree::Closed(Part::Total)),
        b'l' => Some(Tree::Closed(Part::Last)),
        b'F' => Some(Tree::Full(Part::Front)),
        b'T' => Some(Tree::Full(Part::Total)),
        b'L' => Some(Tree::Full(Part::Last)),
        _ => None,
    }
}

/// A tree is whole: it belongs to the last open bracket, or is all where none is open.
fn put(open: &mut Vec<Items<Tree>>, tree: Tree) -> Result<Option<Tree>, AllocError>
    ensures { IfOk result (λ done. put tree (reverse open.old.items) ≡ (done, reverse open.new.items)) }
{
    match open.pop() {
        None => Ok(Some(tree)),
        Some(mut trees) => {
            trees.push(tree)?;
            open.push(trees)?;
            Ok(None)
        }
    }
}

/// The same, where memory that is wanting is a fault.
fn put_or_fault(open: &mut Vec<Items<Tree>>, tree: Tree) -> Result<Option<Tree>, Fault>
    ensures { Steps result (reverse open.new.items) (Ok (put tree (reverse open.old.items))) }
{
    match put(open, tree) {
        Ok(done) => Ok(done),
        Err(_) => Err(Fault::NoMemory),
    }
}

/// The last bracket is closed, which may not be empty.
fn close(open: &mut Vec<Items<Tree>>) -> Result<Option<Tree>, Fault>
    ensures { Steps result (reverse open.new.items) (close (reverse open.old.items)) }
{
    let Some(trees) = open.pop() else {
        return Err(Fault::Bad);
    };
    if trees.is_empty() {
        return Err(Fault::Bad);
    }
    put_or_fault(open, Tree::Split(trees))
}

/// A bracket is opened, unless 42 are open.
fn bracket(alloc: Global, open: &mut Vec<Items<Tree>>) -> Result<Option<Tree>, Fault>
    ensures { Steps result (reverse open.new.items) (item 40 (reverse open.old.items)) }
{
    if open.len() >= 42 {
        return Err(Fault::Deep);
    }
    match open.push(Items::new(alloc)) {
        Ok(()) => Ok(None),
        Err(_) => Err(Fault::NoMemory),
    }
}

/// One item: the whole tree where it is the last.
fn item(alloc: Global, open: &mut Vec<Items<Tree>>, byte: u8) -> Result<Option<Tree>, Fault>
    ensures { Steps result (reverse open.new.items) (item byte (reverse open.old.items)) }
{
    if byte == b'(' {
        return bracket(alloc, open);
    }
    if byte == b')' {
        return close(open);
    }
    match leaf(byte) {
        Some(tree) => put_or_fault(open, tree),
        None => Err(Fault::Bad),
    }
}

/// The item at the front, which has a space before it, and the rest.
fn next(bytes: &[u8]) -> Option<(u8, &[u8])>
    ensures { MatchOption result
        ((b : ℕ) (l : List ℕ) → bytes.now ≡ 32 ∷ b ∷ l → ⊥)
        (λ x. bytes.now ≡ 32 ∷ x.0 ∷ x.1.now) }
{
    let (space, rest) = bytes.split_first()?;
    if *space != b' ' {
        return None;
    }
    let (byte, rest) = rest.split_first()?;
    Some((*byte, rest))
}

/// Reads a tree.
pub fn tree(alloc: Global, cursor: &mut Cursor) -> Result<Tree, Fault>
    ensures { Gives result cursor.new.rest.now (grow [] cursor.old.rest.now) }
{
    let mut open = Vec::new(alloc);
    while let Some((byte, rest)) = next(cursor.rest) {
        let done = item(alloc, &mut open, byte)?;
        cursor.rest = rest;
        if let Some(tree) = done {
            return Ok(tree);
        }
    }
    Err(Fault::Bad)
}
