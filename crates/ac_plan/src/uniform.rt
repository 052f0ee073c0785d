//! Uniform assignments: one word for all coded channels but LFE, which sends where that word does.
ghost use Rattle.std.specs.Prelude.{◌≡◌, ◌==◌, if◌then◌else◌, ℕ, List, IfSome, IsNone};
ghost use Rattle.ac_base.specs.Words.{IsWord, low_word};
ghost use Rattle.ac_cost.specs.Parts.{FitsAt};
ghost use Rattle.ac_plan.specs.Totals.{AreTotals, AreFewTotals, AreSides};
ghost use Rattle.ac_plan.specs.Uniform.{IsUniformBy, IsUniformOf, UniformFits};

use crate::totals::{others, sides, sixths, totals};
use ac_base::Shape;
use ac_bound::is_over;
use ac_cost::{RunCosts, assign_fits};
use ac_expo::{Assign, Word, word_at};

/// How many words there are.
const WORDS: u16 = 3072;

/// LFE's code beside a code: D15 where that sends exponents.
fn low(code: u8) -> u8
    ensures { result ≡ (if code == 0 then 0 else 1) }
{
    if code == 0 { 0 } else { 1 }
}

/// LFE's codes beside those of a word.
fn lows(codes: &[u8; 6]) -> [u8; 6]
    requires { IsWord codes.now }
    ensures value { result ≡ low_word codes.now }
    ensures word { IsWord result }
{
    [
        low(codes[0]),
        low(codes[1]),
        low(codes[2]),
        low(codes[3]),
        low(codes[4]),
        low(codes[5]),
    ]
}

/// LFE's word beside a word.
fn beside(word: &Word) -> Word
    ensures { result ≡ low_word word.now }
{
    Word::new(lows(&word.codes())).unwrap_or(*word)
}

/// The uniform assignment of a word.
pub fn uniform(shape: &Shape, word: &Word) -> Assign
    ensures { IsUniformBy shape.now word.now result.w }
{
    let mut w = [*word; 7];
    if shape.lfe {
        w[usize::from(others(shape))] = beside(word);
    }
    Assign { w }
}

/// The uniform assignment of a word, where it fits. The bits of one whose sixths are over the room aren't counted, as it can't fit.
fn fitting<C: RunCosts>(
    shape: &Shape,
    costs: &C,
    sides: &[u64; 3],
    totals: &[[u32; 3]; 63],
    word: &Word,
) -> Option<Assign>
    requires same { (C.offset costs.now).shape ≡ shape.now }
    requires sides { AreSides shape.now sides.now }
    requires totals { AreTotals (C.offset costs.now) totals.now }
    requires few { AreFewTotals totals.now }
    requires word { IsWord word.now }
    ensures some { IfSome result (λ a. IsUniformBy shape.now word.now a.w) }
    ensures fits { IfSome result (λ a. FitsAt shape.now (C.offset costs.now).raw (C.offset costs.now).t a.w) }
    ensures none { IsNone result → (assign : List (List ℕ)) → IsUniformBy shape.now word.now assign
        → FitsAt shape.now (C.offset costs.now).raw (C.offset costs.now).t assign → ⊥ }
{
    if is_over(shape, &sixths(sides, totals, word)) {
        return None;
    }
    let assign = uniform(shape, word);
    if assign_fits(shape, costs, &assign) {
        Some(assign)
    } else {
        None
    }
}

/// A uniform assignment that fits at an offset, if any does.
pub fn find<C: RunCosts>(shape: &Shape, costs: &C) -> Option<Assign>
    requires { (C.offset costs.now).shape ≡ shape.now }
    ensures some { IfSome result (λ a. IsUniformOf shape.now a.w) }
    ensures fits { IfSome result (λ a. FitsAt shape.now (C.offset costs.now).raw (C.offset costs.now).t a.w) }
    ensures none { IsNone result → UniformFits shape.now (C.offset costs.now).raw (C.offset costs.now).t → ⊥ }
{
    let sides = sides(shape);
    let totals = totals(shape, costs);
    for i in 0..WORDS {
        if let Some(assign) = fitting(shape, costs, &sides, &totals, &word_at(i)) {
            return Some(assign);
        }
    }
    None
}
