//! The lines of an offset.
ghost use Rattle.std.specs.Prelude.{◌≡◌, ◌+◌, ◌<◌, ◌&&◌, ◌++◌, ◌∷◌, [], nat_lt, OnOk, IfErr};
ghost use Rattle.ac_cert_text.specs.Codec.{Shows, Gives, begins};
ghost use Rattle.ac_cert_text.specs.declared.fault.Fault.TheVariants.{NoMemory};
ghost use Rattle.ac_cert_text.specs.Text.{fields_of, tree_line, level, levels, over, offset_of};
ghost use Rattle.ac_cert_text.specs.Views.{offsets_in, over_in};

use crate::cursor::Cursor;
use crate::fault::Fault;
use crate::grow::tree;
use crate::pots::pots;
use ac_base::Shape;
use ac_bound::Pots;
use ac_claim::{Level, Tree};
use std::alloc::Global;

/// Reads the line of a tree.
#[tactic(auto, unfolding(crate::specs::Text::tree_line, crate::specs::TreeText::tree, crate::specs::Codec::after, crate::specs::Codec::before))]
fn tree_line(alloc: Global, cursor: &mut Cursor) -> Result<Tree, Fault>
    ensures { Gives result cursor.new.rest.now (tree_line.read cursor.old.rest.now) }
{
    cursor.word(b"tree")?;
    let tree = tree(alloc, cursor)?;
    cursor.word(b"\n")?;
    Ok(tree)
}

/// Reads the lines of an offset.
#[tactic(auto, unfolding(crate::specs::Text::level, crate::specs::Codec::after, crate::specs::Codec::pair))]
fn level(alloc: Global, cursor: &mut Cursor, shape: &Shape, t: u32) -> Result<Level, Fault>
    ensures { Shows offset_of result cursor.new.rest.now ((level (fields_of shape.now) t).read cursor.old.rest.now) }
{
    cursor.word(b"offset ")?;
    cursor.place(t)?;
    cursor.word(b"\n")?;
    let pots = pots(cursor, shape)?;
    let tree = tree_line(alloc, cursor)?;
    Ok(Level { pots, tree })
}

/// Whether an offset may follow, and does.
fn goes_on(cursor: &Cursor, left: u32) -> bool
    ensures { result ≡ (nat_lt 0 left && begins 111 cursor.now.rest.now) }
{
    left > 0 && cursor.begins(b'o')
}

/// Adds a level.
fn push(levels: &mut Vec<Level>, level: Level) -> Result<(), Fault>
    ensures ok { OnOk result (levels.new.items ≡ levels.old.items ++ level ∷ []) }
    ensures err { IfErr result (λ e. e ≡ NoMemory) }
{
    match levels.push(level) {
        Ok(()) => Ok(()),
        Err(_) => Err(Fault::NoMemory),
    }
}

/// Reads the lines of so many offsets at most, down to 0, and the last line.
fn levels(
    alloc: Global,
    cursor: &mut Cursor,
    shape: &Shape,
    count: u32,
) -> Result<Vec<Level>, Fault>
    ensures { Shows offsets_in result cursor.new.rest.now ((levels (fields_of shape.now) count).read cursor.old.rest.now) }
{
    let mut levels = Vec::new(alloc);
    let mut left = count;
    while goes_on(cursor, left) {
        left -= 1;
        let next = level(alloc, cursor, shape, left)?;
        push(&mut levels, next)?;
    }
    cursor.word(b"end\n")?;
    Ok(levels)
}

/// Reads the potentials above the top, if they are there, and the offsets from the top downwards.
#[tactic(auto, unfolding(crate::specs::Text::over, crate::specs::Codec::fork, crate::specs::Codec::pair, crate::specs::Codec::present, crate::specs::Codec::absent))]
pub fn over(
    alloc: Global,
    cursor: &mut Cursor,
    shape: &Shape,
    top: u16,
) -> Result<(Option<Pots>, Vec<Level>), Fault>
    ensures { Shows over_in result cursor.new.rest.now ((over (fields_of shape.now) top).read cursor.old.rest.now) }
{
    if cursor.begins(b'p') {
        let pots = pots(cursor, shape)?;
        let levels = levels(alloc, cursor, shape, u32::from(top) + 1)?;
        return Ok((Some(pots), levels));
    }
    let levels = levels(alloc, cursor, shape, u32::from(top) + 1)?;
    Ok((None, levels))
}
