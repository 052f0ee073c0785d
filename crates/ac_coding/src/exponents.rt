//! The exponents of a frame, by runs (A/52 7.1.3, 8.2.8).
ghost use Rattle.std.specs.Prelude.{◌≡◌, ◌<◌, ◌≤◌, ℕ, [], slice_index_or};
ghost use Rattle.ac_base.specs.Shape.{IsSpan};
ghost use Rattle.ac_base.specs.Spans.{IsKind};
ghost use Rattle.ac_expo.specs.Greatest.{exponent_of};
ghost use Rattle.ac_expo.specs.Raw.{channels};
ghost use Rattle.ac_cost.specs.Runs.{IsAssignmentOf};
ghost use Rattle.ac_rows.specs.Filled.{listed};
ghost use Rattle.ac_coding.specs.Rows.{row_in, exponent_by};
ghost use Rattle.ac_coding.specs.Values.{row_at, in_spans};

use crate::runs::run_at;
use ac_base::{Run, Shape, Span};
use ac_expo::{Assign, RawExps, greatest};

/// Writes the exponents of a run to a row.
fn write_row(raw: &[[u8; 256]; 6], run: &Run, span: &Span, out: &mut [u8; 256])
    requires kind { IsKind run.now.kind span.now }
    requires span { IsSpan span.now }
    requires order { run.now.from < run.now.to }
    requires blocks { run.now.to ≤ 6 }
    ensures { out.new ≡ row_in span.now (exponent_of run.now.kind span.now raw.now run.now.from run.now.to) }
{
    *out = [0; 256];
    greatest(raw, run, span, out);
}

/// The exponents of block `b` of coded channel `c`, behind those of the blocks before: where the block reuses exponents, they are
/// those of the block before.
fn write_block(
    shape: &Shape,
    raw: &RawExps,
    assign: &Assign,
    c: u8,
    b: u8,
    rows: &mut [[u8; 256]; 6],
)
    requires assigned { IsAssignmentOf shape.now assign.now.w }
    requires channel { c < channels shape.now }
    requires block { b < 6 }
    requires before { (a : ℕ) → a < b
        → slice_index_or rows.old a [] ≡ row_at shape.now (exponent_by shape.now raw.now.e assign.now.w) c a }
    ensures { (a : ℕ) → a ≤ b → slice_index_or rows.new a [] ≡ row_at shape.now (exponent_by shape.now raw.now.e assign.now.w) c a }
{
    let at = usize::from(b);
    if assign.w[usize::from(c)].code(b) == 0 {
        rows[at] = rows[at - 1];
    } else {
        write_row(
            &raw.e[usize::from(c)],
            &run_at(assign, c, b),
            &shape.span(c),
            &mut rows[at],
        );
    }
}

/// The exponents of coded channel `c`.
fn write_channel(shape: &Shape, raw: &RawExps, assign: &Assign, c: u8, rows: &mut [[u8; 256]; 6])
    requires assigned { IsAssignmentOf shape.now assign.now.w }
    requires channel { c < channels shape.now }
    ensures { rows.new ≡ listed 6 0 (row_at shape.now (exponent_by shape.now raw.now.e assign.now.w) c) }
{
    for b in 0..6 {
        write_block(shape, raw, assign, c, b, rows);
    }
}

/// The rows of a channel that isn't coded.
fn clear_channel(shape: &Shape, c: u8, rows: &mut [[u8; 256]; 6])
    requires { channels shape.now ≤ c }
    ensures { (f : ℕ → ℕ → ℕ → ℕ) → rows.new ≡ listed 6 0 (row_at shape.now f c) }
{
    *rows = [[0; 256]; 6];
}

/// The rows of channel `c`, coded or not.
fn fill_channel(shape: &Shape, raw: &RawExps, assign: &Assign, c: u8, rows: &mut [[u8; 256]; 6])
    requires { IsAssignmentOf shape.now assign.now.w }
    ensures { rows.new ≡ listed 6 0 (row_at shape.now (exponent_by shape.now raw.now.e assign.now.w) c) }
{
    if c < shape.coded() {
        write_channel(shape, raw, assign, c, rows);
    } else {
        clear_channel(shape, c, rows);
    }
}

/// The exponents of a frame: of each coded channel, and 0 elsewhere.
pub fn write_exponents(shape: &Shape, raw: &RawExps, assign: &Assign, out: &mut [[[u8; 256]; 6]; 7])
    requires { IsAssignmentOf shape.now assign.now.w }
    ensures { out.new ≡ in_spans shape.now (exponent_by shape.now raw.now.e assign.now.w) }
{
    for c in 0..7u8 {
        fill_channel(shape, raw, assign, c, &mut out[usize::from(c)]);
    }
}
