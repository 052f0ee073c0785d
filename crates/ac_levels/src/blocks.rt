//! The steps and lists of the six blocks.
ghost use Rattle.std.specs.Prelude.{ℕ, ◌+◌, ◌-◌, ◌≤◌, List};
ghost use Rattle.ac_base.specs.Shape.{IsSpan};
ghost use Rattle.ac_base.specs.Spans.{IsKind};
ghost use Rattle.ac_levels.specs.Reach.{AreBlockSteps};
ghost use Rattle.ac_levels.specs.Rows.{AreBlocks};

use crate::steps::{Scratch, fill_block, pairs, place_block, window};
use ac_base::Span;

/// The steps of kind 1.
pub(crate) fn place_blocks(raw: &[[u8; 256]; 6], span: &Span) -> [[u8; 288]; 6]
    requires { IsSpan span.now }
    ensures { AreBlockSteps 1 span.now raw.now result }
{
    let mut steps = [[0; 288]; 6];
    for b in 0..6u8 {
        place_block(raw, b, span, &mut steps[usize::from(b)]);
    }
    steps
}

/// The steps of a kind from those of the kind before.
pub(crate) fn join_steps(old: &[[u8; 288]; 6], kind: u8, span: &Span) -> [[u8; 288]; 6]
    requires kind { IsKind kind span.now }
    requires some { 2 ≤ kind }
    requires span { IsSpan span.now }
    ensures { (raw : List (List ℕ)) → AreBlockSteps (kind - 1) span.now raw old.now → AreBlockSteps kind span.now raw result }
{
    let n = window(kind, span);
    let rounds = (n + 15) / 16;
    let mut new = [[0; 288]; 6];
    for b in 0..6 {
        pairs(&old[b], rounds, &mut new[b]);
    }
    new
}

/// The levels of the lists of the six blocks, of which these are the steps.
pub(crate) fn fill_blocks(
    steps: &[[u8; 288]; 6],
    kind: u8,
    span: &Span,
    blocks: &mut [[u8; 256]; 6],
)
    requires kind { IsKind kind span.now }
    requires span { IsSpan span.now }
    ensures { (raw : List (List ℕ)) → AreBlockSteps kind span.now raw steps.now → AreBlocks kind span.now raw blocks.new }
{
    let n = window(kind, span);
    let mut scratch = Scratch::new();
    for b in 0..6 {
        fill_block(&steps[b], kind, n, span, &mut scratch, &mut blocks[b]);
    }
}
