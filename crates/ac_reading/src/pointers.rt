//! The bit allocation pointers of a block (A/52 7.2.2).
ghost use Rattle.std.specs.Prelude.{◌≡◌, true, ℕ, ◌<◌, ◌≤◌, [], slice_index, slice_index_or};
ghost use Rattle.ac_base.specs.Shape.{IsSpan};
ghost use Rattle.ac_alloc.specs.Integration.{AreExponents};
ghost use Rattle.ac_alloc.specs.Pointers.{pointer, most_offset};
ghost use Rattle.ac_rows.specs.Filled.{span_in, spans_of};
ghost use Rattle.ac_record.specs.Channels.{coded_in};
ghost use Rattle.ac_record.specs.Held.{is_silent, params_in, offset_of};
ghost use Rattle.ac_record.specs.Readings.{cell, HoldsIn};
ghost use Rattle.ac_reading.specs.Cells.{IsRow, IsBlank, StaysBut};
ghost use Rattle.ac_reading.specs.Kept.{IsSame, KeepsPointers, RowsIn, pointer_by};
ghost use Rattle.ac_reading.specs.Mantissas.{span_at};

use crate::cells::{put, same_row};
use crate::channels::{coded, offset, params, same_params, silent};
use crate::kept::Kept;
use ac_alloc::{Mask, Params, baps};
use ac_base::Span;
use ac_rows::{Block, Head};

/// The pointers of a coded channel by bin; 0 at bins that it doesn't have.
fn pointer_row(silent: bool, p: &Params, span: &Span, exps: &[u8; 256], t: u16) -> [u8; 256]
    requires span { IsSpan span.now }
    requires exps { AreExponents span.now.start span.now.end exps.now }
    requires t { t ≤ most_offset }
    ensures value { IsRow span.now (λ k. pointer silent p.now span.now exps.now k t) result }
    ensures small { (k : ℕ) → slice_index result k ≤ 15 }
{
    let mut row = [0; 256];
    let mask = Mask::of(p, span, exps);
    baps(&mask, span, exps, t, silent, &mut row);
    row
}

/// Whether the bit allocation of coded channel `c` has the same offset in the block before.
fn same_offset(head: &Head, filled: &Block, before: &Block, c: usize) -> bool
    requires { head.now.acmod ≤ 7 }
    ensures { result ≡ true → offset_of head.now before.now c ≡ offset_of head.now filled.now c }
{
    offset(head, before, c) == offset(head, filled, c)
}

/// Whether the pointers of coded channel `c` of the block before, which had the first exponents, were made from the same, with
/// the second ones.
fn stays(
    head: &Head,
    filled: &Block,
    span: &Span,
    kept: &Kept,
    c: usize,
    old: &[u8; 256],
    exps: &[u8; 256],
) -> bool
    requires modes { head.now.acmod ≤ 7 }
    requires channel { c < 7 }
    ensures { result ≡ true → IsSame head.now filled.now span.now kept.now c old.now exps.now }
{
    if kept.has(c, span) {
        if same_params(head, &kept.block, filled, c) && same_offset(head, filled, &kept.block, c) {
            same_row(old, exps)
        } else {
            false
        }
    } else {
        false
    }
}

/// The pointers of coded channel `c`, by its exponents: those of the block before, which are given with its exponents, where they
/// were made from the same.
fn kept_row(
    head: &Head,
    filled: &Block,
    span: &Span,
    silences: (bool, bool),
    kept: &Kept,
    c: usize,
    exps: &[u8; 256],
    old: &[u8; 256],
    before: &[u8; 256],
) -> [u8; 256]
    requires modes { head.now.acmod ≤ 7 }
    requires channel { c < 7 }
    requires was_silent { silences.0 ≡ is_silent head.now kept.now.block }
    requires silent { silences.1 ≡ is_silent head.now filled.now }
    requires span { IsSpan span.now }
    requires exps { AreExponents span.now.start span.now.end exps.now }
    requires offset { offset_of head.now filled.now c ≤ most_offset }
    requires before { c < kept.now.count → IsRow (span_at kept.now.spans c) (λ k. pointer (is_silent head.now kept.now.block)
        (params_in head.now kept.now.block c) (span_at kept.now.spans c) old.now k (offset_of head.now kept.now.block c)) before.now }
    ensures value { IsRow span.now (λ k. pointer (is_silent head.now filled.now) (params_in head.now filled.now c) span.now exps.now k
        (offset_of head.now filled.now c)) result }
    ensures small { (k : ℕ) → slice_index result k ≤ 15 }
{
    if silences.0 == silences.1 && stays(head, filled, span, kept, c, old, exps) {
        *before
    } else {
        pointer_row(
            silences.1,
            &params(head, filled, c),
            span,
            exps,
            offset(head, filled, c),
        )
    }
}

/// Puts the pointers of a block, whose exponents are there, into a blank place.
pub fn put_pointers(
    head: &Head,
    filled: &Block,
    spans: &[Span; 7],
    b: usize,
    kept: &Kept,
    exps: &[[[u8; 256]; 6]; 7],
    out: &mut [[[u8; 256]; 6]; 7],
)
    requires head { head.now.acmod ≤ 7 }
    requires spans { spans.now ≡ spans_of head.now filled.now }
    requires coded { (c : ℕ) → c < coded_in head.now filled.now → IsSpan (span_in head.now filled.now c) }
    requires offsets { (c : ℕ) → c < coded_in head.now filled.now → offset_of head.now filled.now c ≤ most_offset }
    requires exps { (c : ℕ) → c < coded_in head.now filled.now → AreExponents (span_in head.now filled.now c).start
        (span_in head.now filled.now c).end (slice_index_or (slice_index_or exps.now c []) b []) }
    requires place { b < 6 }
    requires blank { IsBlank b out.old }
    requires first { b ≡ 0 → kept.now.count ≡ 0 }
    requires kept_spans { (c : ℕ) → c < kept.now.count → span_at kept.now.spans c ≡ span_in head.now kept.now.block c }
    requires kept { KeepsPointers head.now b kept.now exps.now out.old }
    ensures value { HoldsIn head.now filled.now b out.new (pointer_by head.now filled.now b exps.now) }
    ensures rows { RowsIn head.now filled.now b out.new (pointer_by head.now filled.now b exps.now) (coded_in head.now filled.now) }
    ensures small { (c k : ℕ) → cell out.new c b k ≤ 15 }
    ensures rest { StaysBut b out.old out.new }
{
    let silences = (silent(head, &kept.block), silent(head, filled));
    let last = b.saturating_sub(1);
    for c in 0..coded(head, filled) {
        let row = kept_row(
            head,
            filled,
            &spans[c],
            silences,
            kept,
            c,
            &exps[c][b],
            &exps[c][last],
            &out[c][last],
        );
        put(out, c, b, &row);
    }
}
