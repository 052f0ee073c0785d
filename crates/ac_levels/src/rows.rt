//! The lists of all runs of a channel.
ghost use Rattle.std.specs.Prelude.{◌≡◌, ℕ, ◌+◌, ◌-◌, ◌*◌, ◌<◌, ◌≤◌, ◌⊎◌, max, List, slice_index};
ghost use Rattle.ac_base.specs.Shape.{IsSpan};
ghost use Rattle.ac_base.specs.Spans.{IsKind, greatest_kind};
ghost use Rattle.ac_levels.specs.Reach.{AreBlockSteps};
ghost use Rattle.ac_levels.specs.Rows.{ranges_before, row_of, AreRows, AreRowsBelow, AreMost, KeepsOthers};

use crate::blocks::{fill_blocks, join_steps, place_blocks};
use ac_base::{Lead, Span};

/// The ranges of six blocks that begin before each block.
static BEFORE: [u8; 6] = [0, 6, 11, 15, 18, 20];

/// The ranges that begin before a block.
#[tactic(auto, unfolding(crate::specs::Rows::ranges_before))]
fn before(from: u8) -> u8
    requires { from < 6 }
    ensures { result ≡ ranges_before from }
{
    BEFORE[usize::from(from)]
}

/// The row of the run from block `from` up to but not `to`.
pub fn row(kind: u8, from: u8, to: u8) -> usize
    requires some { 1 ≤ kind }
    requires kind { kind ≤ 3 }
    requires order { from < to }
    requires blocks { to ≤ 6 }
    ensures value { result ≡ row_of kind from to }
    ensures bound { result < 63 }
{
    usize::from(21 * (kind - 1) + before(from) + (to - from - 1))
}

/// The greatest kind of a channel.
fn kinds(lead: Lead) -> u8
    ensures value { result ≡ greatest_kind lead }
    ensures either { (result ≡ 1) ⊎ (result ≡ 3) }
{
    match lead {
        Lead::Free | Lead::Coupled | Lead::Coupling => 3,
        Lead::Low => 1,
    }
}

/// Raises each level of a row to that of a block, and writes it out.
fn raise(block: &[u8; 256], row: &mut [u8; 256], out: &mut [u8; 256])
    ensures row { (k : ℕ) → k < 256 → slice_index row.new k ≡ max (slice_index row.old k) (slice_index block.now k) }
    ensures out { (k : ℕ) → k < 256 → slice_index out.new k ≡ slice_index row.new k }
{
    for k in 0..256 {
        let level = row[k].max(block[k]);
        row[k] = level;
        out[k] = level;
    }
}

/// The rows of the ranges that begin at a block.
fn fill_from(blocks: &[[u8; 256]; 6], from: usize, at: usize, out: &mut [[u8; 256]; 63])
    requires block { from < 6 }
    requires room { at + 6 ≤ 63 + from }
    ensures rows { AreMost blocks.now from at out.new }
    ensures others { KeepsOthers at (at + 6 - from) out.old out.new }
{
    let mut row = blocks[from];
    out[at] = row;
    for b in from + 1..6 {
        raise(&blocks[b], &mut row, &mut out[at + b - from]);
    }
}

/// The 21 rows of a kind.
fn fill_kind(blocks: &[[u8; 256]; 6], start: usize, out: &mut [[u8; 256]; 63])
    requires { start + 21 ≤ 63 }
    ensures rows { (from : ℕ) → from < 6 → AreMost blocks.now from (start + ranges_before from) out.new }
    ensures others { KeepsOthers start (start + 21) out.old out.new }
{
    let mut at = start;
    for from in 0..6 {
        fill_from(blocks, from, at, out);
        at += 6 - from;
    }
}

/// The rows of a kind, of which these are the steps of the blocks.
fn fill_next(
    steps: &[[u8; 288]; 6],
    kind: u8,
    span: &Span,
    blocks: &mut [[u8; 256]; 6],
    out: &mut [[u8; 256]; 63],
)
    requires kind { IsKind kind span.now }
    requires most { kind ≤ 3 }
    requires span { IsSpan span.now }
    ensures { (raw : List (List ℕ)) → AreBlockSteps kind span.now raw steps.now → AreRowsBelow span.now raw kind out.old
        → AreRowsBelow span.now raw (kind + 1) out.new }
{
    fill_blocks(steps, kind, span, blocks);
    fill_kind(blocks, 21 * usize::from(kind - 1), out);
}

/// The lists of all runs of a channel as levels, in their rows: 63, and of LFE the 21 of kind 1.
pub fn fill_rows(raw: &[[u8; 256]; 6], span: &Span, out: &mut [[u8; 256]; 63])
    requires { IsSpan span.now }
    ensures { AreRows span.now raw.now out.new }
{
    let mut blocks = [[0; 256]; 6];
    let bins = place_blocks(raw, span);
    fill_next(&bins, 1, span, &mut blocks, out);
    if kinds(span.lead) == 3 {
        let pairs = join_steps(&bins, 2, span);
        fill_next(&pairs, 2, span, &mut blocks, out);
        let fours = join_steps(&pairs, 3, span);
        fill_next(&fours, 3, span, &mut blocks, out);
    }
}
