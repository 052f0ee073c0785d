//! The bits of a frame's parts by an assignment.
ghost use Rattle.std.specs.Prelude.{◌≡◌, ◌<◌, ◌≤◌, ◌+◌, ◌*◌, ◌^◌, ◌↔◌, IsTrue, ℕ, [], slice_index, slice_index_or};
ghost use Rattle.ac_base.specs.Counts.{joined, exact_of};
ghost use Rattle.ac_base.specs.Sigma.{sum_below};
ghost use Rattle.ac_base.specs.Words.{IsWord, runs_of, word_of};
ghost use Rattle.ac_mant.specs.Counts.{tally};
ghost use Rattle.ac_cost.specs.Runs.{run_with, IsAssignmentOf, TakesLow};
ghost use Rattle.ac_cost.specs.Parts.{parts_at, FitsAt};
ghost use Rattle.ac_cost.specs.Prices.{AreFew};
ghost use Rattle.ac_cost.specs.Blocks.{counts_at, exponents_at, mantissas_at};

use crate::blocks::{exponent_bits, has, side};
use crate::costs::RunCosts;
use crate::priced::NONE;
use ac_base::{Parts, Run, Shape};
use ac_expo::{Assign, runs};
use ac_mant::{Counts, exact};

/// The first of these runs that has a block.
fn find(runs: &[Run], block: u8) -> Run
    ensures { result ≡ run_with runs.now block }
{
    for run in runs {
        if has(run, block) {
            return *run;
        }
    }
    Run {
        from: 0,
        to: 0,
        kind: 0,
    }
}

/// The run of a channel's word that has a block.
fn run_in(a: &Assign, c: u8, block: u8) -> Run
    requires { c < 7 }
    ensures { result ≡ run_with (runs_of (word_of a.now.w c)) block }
{
    find(runs(&a.w[c as usize]).as_slice(), block)
}

/// The codes of the words.
fn codes(a: &Assign) -> [[u8; 6]; 7]
    ensures value { (c : ℕ) → c < 7 → slice_index_or result c [] ≡ word_of a.now.w c }
    ensures words { (c : ℕ) → c < 7 → IsWord (word_of a.now.w c) }
{
    let mut codes = [[0; 6]; 7];
    for c in 0..7usize {
        codes[c] = a.w[c].codes();
    }
    codes
}

/// The mantissas of both.
fn join(few: &Counts, more: &Counts) -> Counts
    requires few { AreFew 6 few.now }
    requires more { AreFew 1 more.now }
    ensures { tally result ≡ joined (tally few.now) (tally more.now) }
{
    Counts {
        linear: few.linear + more.linear,
        n1: few.n1 + more.n1,
        n2: few.n2 + more.n2,
        n4: few.n4 + more.n4,
    }
}

/// What the mantissas of a block cost.
fn mantissa_bits(counts: &Counts) -> u32
    requires { AreFew 7 counts.now }
    ensures value { result ≡ exact_of (tally counts.now) }
    ensures bound { result ≤ 2 ^ 16 }
{
    exact(counts)
}

/// The sum of the bits of the first blocks.
fn first(blocks: usize, bits: &[u32; 6]) -> u32
    requires few { blocks ≤ 6 }
    requires bound { (b : ℕ) → slice_index bits.now b ≤ 2 ^ 16 }
    ensures value { result ≡ sum_below blocks (slice_index bits.now) }
    ensures bound { result ≤ 2 ^ 16 * blocks }
{
    let mut sum = 0;
    for block in 0..blocks {
        sum += bits[block];
    }
    sum
}

/// The mantissas of a block, over all coded channels.
fn block_counts<C: RunCosts>(shape: &Shape, costs: &C, a: &Assign, block: u8) -> Counts
    requires same { (C.offset costs.now).shape ≡ shape.now }
    requires block { block ≤ 5 }
    requires assign { IsAssignmentOf shape.now a.now.w }
    ensures value { tally result ≡ counts_at (C.offset costs.now) a.now.w block }
    ensures bound { AreFew 7 result }
{
    let mut counts = NONE;
    for c in 0..shape.coded() {
        counts = join(&counts, &costs.run_counts(c, &run_in(a, c, block)));
    }
    counts
}

/// The exponent bits of a block, over all coded channels, by the channels' codes.
fn block_exponents(shape: &Shape, codes: &[[u8; 6]; 7], block: u8) -> u32
    requires block { block ≤ 5 }
    requires assign { IsAssignmentOf shape.now codes.now }
    ensures value { result ≡ exponents_at shape.now codes.now block }
    ensures bound { result ≤ 4200 }
{
    let mut bits = 0;
    for c in 0..shape.coded() {
        let code = codes[c as usize][block as usize];
        bits += exponent_bits(code, &shape.span(c));
    }
    bits
}

/// The mantissas' bits of each block.
fn mantissas<C: RunCosts>(shape: &Shape, costs: &C, a: &Assign) -> [u32; 6]
    requires same { (C.offset costs.now).shape ≡ shape.now }
    requires assign { IsAssignmentOf shape.now a.now.w }
    ensures value { (b : ℕ) → b < 6 → slice_index result b ≡ mantissas_at (C.offset costs.now) a.now.w b }
    ensures bound { (b : ℕ) → slice_index result b ≤ 2 ^ 16 }
{
    let mut bits = [0; 6];
    for block in 0..6u8 {
        bits[block as usize] = mantissa_bits(&block_counts(shape, costs, a, block));
    }
    bits
}

/// The exponents' bits of each block, by the channels' codes.
fn exponents(shape: &Shape, codes: &[[u8; 6]; 7]) -> [u32; 6]
    requires assign { IsAssignmentOf shape.now codes.now }
    ensures value { (b : ℕ) → b < 6 → slice_index result b ≡ exponents_at shape.now codes.now b }
    ensures bound { (b : ℕ) → slice_index result b ≤ 2 ^ 16 }
{
    let mut bits = [0; 6];
    for block in 0..6u8 {
        bits[block as usize] = block_exponents(shape, codes, block);
    }
    bits
}

/// The bits of the three parts of a frame with an assignment of strategies whose LFE codes are 0 and 1.
pub fn assign_parts<C: RunCosts>(shape: &Shape, costs: &C, a: &Assign) -> Parts
    requires same { (C.offset costs.now).shape ≡ shape.now }
    requires low { TakesLow shape.now a.now.w }
    ensures value { result ≡ parts_at shape.now (C.offset costs.now).raw (C.offset costs.now).t a.now.w }
{
    let side = side(shape);
    let exponents = exponents(shape, &codes(a));
    let mantissas = mantissas(shape, costs, a);
    Parts {
        front: side.front + first(2, &exponents) + first(2, &mantissas),
        total: side.total + first(6, &exponents) + first(6, &mantissas),
        last: mantissas[5],
    }
}

/// Whether an assignment of strategies whose LFE codes are 0 and 1 fits the frame.
pub fn assign_fits<C: RunCosts>(shape: &Shape, costs: &C, a: &Assign) -> bool
    requires same { (C.offset costs.now).shape ≡ shape.now }
    requires low { TakesLow shape.now a.now.w }
    ensures value { IsTrue result ↔ FitsAt shape.now (C.offset costs.now).raw (C.offset costs.now).t a.now.w }
{
    assign_parts(shape, costs, a).fit(shape.words)
}
