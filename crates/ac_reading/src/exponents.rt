//! The exponents of a block (A/52 7.1.3).
ghost use Rattle.std.specs.Prelude.{◌≡◌, true, ℕ, ◌<◌, ◌≤◌, ◌+◌, ◌-◌, ◌*◌, [], Option, None, slice_index, slice_index_or};
ghost use Rattle.std.specs.Option.{ForSome};
ghost use Rattle.ac_base.specs.Spans.{IsIn, IsKind, is_coupling};
ghost use Rattle.ac_expo.specs.Steps.{step_of};
ghost use Rattle.ac_expo.specs.Groups.{spelled_exponent};
ghost use Rattle.ac_alloc.specs.Integration.{AreExponents};
ghost use Rattle.ac_rows.specs.HeadRows.{head_fields};
ghost use Rattle.ac_rows.specs.BlockRows.{block_fields, AreLawful};
ghost use Rattle.ac_rows.specs.Filled.{holds, latest, filled_of, span_in, spans_of};
ghost use Rattle.ac_record.specs.Channels.{coded_in};
ghost use Rattle.ac_record.specs.Held.{with_kind, sent_exponents, held_exponents, exponent_by, exponent_in};
ghost use Rattle.ac_record.specs.Readings.{HoldsIn};
ghost use Rattle.ac_reading.specs.Cells.{IsRow, IsBlank, StaysBut};
ghost use Rattle.ac_reading.specs.Kept.{HasSent, KeepsExponents, RowsIn};
ghost use Rattle.ac_reading.specs.Mantissas.{span_at};
ghost use Rattle.ac_reading.specs.Spells.{Spells};

use crate::cells::put;
use crate::channels::{coded, is_shared};
use crate::kept::Kept;
use ac_base::{Lead, Span};
use ac_expo::{Spelled, sums_of};
use ac_rows::{Block, Head, full_channels, holds, number};

/// The exponents that the block `sent` sends of coded channel `c` of the filled block: their kind and groups.
fn sent(head: &Head, filled: &Block, c: usize, sent: &Block) -> Option<(u8, Spelled)>
    requires { head.now.acmod ≤ 7 }
    ensures { result ≡ sent_exponents head.now filled.now c sent.now }
{
    if c < usize::from(full_channels(head.acmod)) {
        with_kind(sent.chexpstr[c], sent.exps[c])
    } else if is_shared(head, filled, c) {
        with_kind(number(sent.cplexpstr), sent.cplabsexp)
    } else {
        with_kind(1, sent.lfeexps)
    }
}

/// A kind with groups, where there are any.
fn with_kind(kind: u8, groups: Option<Spelled>) -> Option<(u8, Spelled)>
    ensures { result ≡ with_kind kind groups }
{
    match groups {
        Some(spelled) => Some((kind, spelled)),
        None => None,
    }
}

/// The exponents that hold of coded channel `c` of a block: its own, or else the latest.
fn held(
    head: &Head,
    earlier: &[Block],
    block: &Block,
    filled: &Block,
    c: usize,
) -> Option<(u8, Spelled)>
    requires channels { head.now.acmod ≤ 7 }
    requires filled { filled.now ≡ filled_of head.now earlier.now block.now }
    ensures { result ≡ held_exponents head.now earlier.now block.now c }
{
    let mut kept = None;
    for before in earlier {
        kept = sent(head, filled, c, before).or(kept);
    }
    sent(head, filled, c, block).or(kept)
}

/// Whether it is the coupling channel.
#[inline]
fn coupling(lead: Lead) -> bool
    ensures { result ≡ is_coupling lead }
{
    match lead {
        Lead::Coupling => true,
        Lead::Free | Lead::Coupled | Lead::Low => false,
    }
}

/// The step of a bin.
#[inline]
#[tactic(auto, unfolding(ac_expo::specs::Steps::step_of))]
fn step(kind: u8, span: &Span, bin: usize) -> usize
    requires kind { IsKind kind span.now }
    requires within { IsIn span.now bin }
    requires end { span.now.end ≤ 253 }
    ensures { result ≡ step_of kind span.now bin }
{
    let at = bin - span.start as usize;
    let open = usize::from(coupling(span.lead));
    match kind {
        1 => at + open,
        2 => (at + 1 + open) / 2,
        _ => (at + 3 + open) / 4,
    }
}

/// Gives each bin of the span the exponent of its step.
fn write(sums: &[u16; 256], kind: u8, span: &Span, out: &mut [u8; 256])
    requires kind { IsKind kind span.now }
    requires end { span.now.end ≤ 253 }
    requires there { (k : ℕ) → IsIn span.now k → step_of kind span.now k < 256 }
    requires least { (k : ℕ) → IsIn span.now k → 2 * step_of kind span.now k ≤ slice_index sums.now (step_of kind span.now k) }
    requires most { (k : ℕ) → IsIn span.now k → slice_index sums.now (step_of kind span.now k) ≤ 2 * step_of kind span.now k + 24 }
    ensures value { (k : ℕ) → IsIn span.now k
        → slice_index out.new k ≡ slice_index sums.now (step_of kind span.now k) - 2 * step_of kind span.now k }
    ensures rest { (k : ℕ) → (IsIn span.now k → ⊥) → slice_index out.new k ≡ slice_index out.old k }
{
    for k in usize::from(span.start)..usize::from(span.end) {
        let at = step(kind, span, k);
        out[k] = (usize::from(sums[at]) - 2 * at) as u8;
    }
}

/// The exponents that groups give to the bins of a span; 0 elsewhere.
fn spelled_row(kind: u8, span: &Span, spelled: &Spelled) -> [u8; 256]
    requires { Spells kind span.now spelled.now }
    ensures value { IsRow span.now (λ k. spelled_exponent span.now.lead spelled.now (step_of kind span.now k)) result }
    ensures bound { AreExponents span.now.start span.now.end result }
{
    let sums = sums_of(span.lead, spelled);
    let mut row = [0; 256];
    write(&sums, kind, span, &mut row);
    row
}

/// No exponents.
fn blank_row() -> [u8; 256]
    ensures { (k : ℕ) → slice_index result k ≡ 0 }
{
    [0; 256]
}

/// The exponents of a kind and groups by bin; 0 at bins outside the span, and everywhere where there are no groups.
fn row_by(list: Option<(u8, Spelled)>, span: &Span) -> [u8; 256]
    requires { ForSome list (λ p. Spells p.0 span.now p.1) }
    ensures value { IsRow span.now (exponent_by span.now list) result }
    ensures bound { AreExponents span.now.start span.now.end result }
{
    match list {
        Some((kind, spelled)) => spelled_row(kind, span, &spelled),
        None => blank_row(),
    }
}

/// Whether a block sends no exponents of coded channel `c` of the filled block.
fn sends_none(head: &Head, filled: &Block, c: usize, block: &Block) -> bool
    requires { head.now.acmod ≤ 7 }
    ensures { result ≡ true → sent_exponents head.now filled.now c block.now ≡ None }
{
    match sent(head, filled, c, block) {
        Some(_) => false,
        None => true,
    }
}

/// Whether coupling is in use in both blocks, or in none.
fn same_use(a: &Block, b: &Block) -> bool
    ensures { result ≡ true → holds a.now.cplinu ≡ holds b.now.cplinu }
{
    holds(a.cplinu) == holds(b.cplinu)
}

/// Whether the exponents of coded channel `c` are those of the block before.
fn stays(head: &Head, block: &Block, filled: &Block, span: &Span, kept: &Kept, c: usize) -> bool
    requires modes { head.now.acmod ≤ 7 }
    requires channel { c < 7 }
    ensures { result ≡ true → HasSent head.now block.now filled.now span.now kept.now c }
{
    if kept.has(c, span) {
        if same_use(&kept.block, filled) {
            sends_none(head, filled, c, block)
        } else {
            false
        }
    } else {
        false
    }
}

/// The exponents of coded channel `c` of a block by bin, 0 at bins that it doesn't have: those of the block before, which are
/// given, where the block sends none.
fn exponent_row(
    head: &Head,
    earlier: &[Block],
    block: &Block,
    filled: &Block,
    span: &Span,
    kept: &Kept,
    c: usize,
    before: &[u8; 256],
) -> [u8; 256]
    requires head { head_fields.Lawful head.now }
    requires earlier { AreLawful head.now earlier.now }
    requires block { (block_fields head.now earlier.now).Lawful block.now }
    requires filled { filled.now ≡ filled_of head.now earlier.now block.now }
    requires span { span.now ≡ span_in head.now filled.now c }
    requires coded { c < coded_in head.now filled.now }
    requires channel { c < 7 }
    requires before { c < kept.now.count → IsRow (span_at kept.now.spans c)
        (exponent_by (span_at kept.now.spans c) (latest (sent_exponents head.now kept.now.block c) earlier.now)) before.now }
    ensures value { IsRow span.now (exponent_in head.now earlier.now block.now c) result }
    ensures bound { AreExponents span.now.start span.now.end result }
{
    if stays(head, block, filled, span, kept, c) {
        *before
    } else {
        row_by(held(head, earlier, block, filled, c), span)
    }
}

/// Puts the exponents of a block into a blank place.
pub fn put_exponents(
    head: &Head,
    earlier: &[Block],
    block: &Block,
    filled: &Block,
    spans: &[Span; 7],
    b: usize,
    kept: &Kept,
    out: &mut [[[u8; 256]; 6]; 7],
)
    requires head { head_fields.Lawful head.now }
    requires earlier { AreLawful head.now earlier.now }
    requires block { (block_fields head.now earlier.now).Lawful block.now }
    requires filled { filled.now ≡ filled_of head.now earlier.now block.now }
    requires spans { spans.now ≡ spans_of head.now filled.now }
    requires place { b < 6 }
    requires blank { IsBlank b out.old }
    requires kept { KeepsExponents head.now b kept.now earlier.now out.old }
    ensures value { HoldsIn head.now filled.now b out.new (exponent_in head.now earlier.now block.now) }
    ensures rows { RowsIn head.now filled.now b out.new (exponent_in head.now earlier.now block.now) (coded_in head.now filled.now) }
    ensures bound { (c : ℕ) → c < coded_in head.now filled.now → AreExponents (span_in head.now filled.now c).start
        (span_in head.now filled.now c).end (slice_index_or (slice_index_or out.new c []) b []) }
    ensures rest { StaysBut b out.old out.new }
{
    let last = b.saturating_sub(1);
    for c in 0..coded(head, filled) {
        let row = exponent_row(
            head,
            earlier,
            block,
            filled,
            &spans[c],
            kept,
            c,
            &out[c][last],
        );
        put(out, c, b, &row);
    }
}
