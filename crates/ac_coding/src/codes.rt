//! The codes of the mantissas of a frame (A/52 7.3, 8.2.12).
ghost use Rattle.std.specs.Prelude.{◌≡◌, ◌<◌, ◌≤◌, ◌+◌, ◌-◌, ◌*◌, ◌^◌, ◌==◌, ℕ, pos, [], slice_index, slice_index_or, unsigned_abs};
ghost use Rattle.ac_base.specs.Shape.{IsSpan};
ghost use Rattle.ac_base.specs.Spans.{IsIn};
ghost use Rattle.ac_base.specs.Words.{word_of};
ghost use Rattle.ac_expo.specs.Raw.{channels, channel_span};
ghost use Rattle.ac_alloc.specs.Codes.{encoder_params};
ghost use Rattle.ac_alloc.specs.Pointers.{pointer};
ghost use Rattle.ac_mant.specs.Quantiser.{code_of};
ghost use Rattle.ac_cost.specs.Runs.{IsAssignmentOf};
ghost use Rattle.ac_rows.specs.Filled.{listed};
ghost use Rattle.ac_record.specs.Readings.{cell};
ghost use Rattle.ac_coding.specs.Rows.{row_in, code_by, ArePointersIn, AreHeld};
ghost use Rattle.ac_energy.specs.Coefficients.{entry};
ghost use Rattle.ac_coding.specs.Values.{row_at, in_spans};

use ac_alloc::{Mask, Params, baps};
use ac_base::{Coefs, Shape, Span};
use ac_expo::Assign;
use ac_mant::quantise;

/// Writes the codes of a row of coefficients, by their exponents and pointers.
fn write_row(
    coefs: &[i32; 256],
    exps: &[u8; 256],
    pointers: &[u8; 256],
    span: &Span,
    out: &mut [u16; 256],
)
    requires span { IsSpan span.now }
    requires exponents { (k : ℕ) → IsIn span.now k → slice_index exps.now k ≤ 24 }
    requires pointers { (k : ℕ) → IsIn span.now k → slice_index pointers.now k ≤ 15 }
    requires below { (k : ℕ) → IsIn span.now k
        → unsigned_abs (slice_index_or coefs.now k (pos 0)) * 2 ^ slice_index exps.now k < 2 ^ 24 }
    ensures { out.new ≡ row_in span.now
        (λ k. code_of (slice_index_or coefs.now k (pos 0)) (slice_index exps.now k) (slice_index pointers.now k)) }
{
    *out = [0; 256];
    for k in usize::from(span.start)..usize::from(span.end) {
        out[k] = quantise(coefs[k], exps[k], pointers[k]);
    }
}

/// The pointers of coded channel `c` by a row of exponents.
fn point(shape: &Shape, c: u8, exps: &[u8; 256], t: u16, out: &mut [u8; 256])
    requires channel { c < channels shape.now }
    requires exponents { (k : ℕ) → IsIn (channel_span shape.now c) k → slice_index exps.now k ≤ 24 }
    requires offset { t ≤ 1023 }
    ensures { (k : ℕ) → IsIn (channel_span shape.now c) k → slice_index out.new k
        ≡ pointer (t == 0) (encoder_params shape.now.fscod shape.now.sampling) (channel_span shape.now c) exps.now k t }
{
    let span = shape.span(c);
    let mask = Mask::of(&Params::encoder(shape.fscod), &span, exps);
    baps(&mask, &span, exps, t, t == 0, out);
}

/// The pointers of coded channel `c` in block `b`, from those of the block before: where the block reuses exponents, they stay.
fn point_block(
    shape: &Shape,
    assign: &Assign,
    exps: &[[[u8; 256]; 6]; 7],
    t: u16,
    c: u8,
    b: u8,
    out: &mut [u8; 256],
)
    requires channel { c < channels shape.now }
    requires block { b < 6 }
    requires offset { t ≤ 1023 }
    requires assigned { IsAssignmentOf shape.now assign.now.w }
    requires small { (k : ℕ) → IsIn (channel_span shape.now c) k → cell exps.now c b k ≤ 24 }
    requires kept { (a : ℕ) → a < 5 → slice_index (word_of assign.now.w c) (a + 1) ≡ 0
        → slice_index_or (slice_index_or exps.now c []) (a + 1) [] ≡ slice_index_or (slice_index_or exps.now c []) a [] }
    requires before { 0 < b → ArePointersIn shape.now exps.now t c (b - 1) out.old }
    ensures { ArePointersIn shape.now exps.now t c b out.new }
{
    if assign.w[usize::from(c)].code(b) != 0 {
        point(shape, c, &exps[usize::from(c)][usize::from(b)], t, out);
    }
}

/// The codes of coded channel `c`.
fn write_channel(
    shape: &Shape,
    coefs: &Coefs,
    assign: &Assign,
    exps: &[[[u8; 256]; 6]; 7],
    t: u16,
    c: u8,
    rows: &mut [[u16; 256]; 6],
)
    requires channel { c < channels shape.now }
    requires offset { t ≤ 1023 }
    requires assigned { IsAssignmentOf shape.now assign.now.w }
    requires held { AreHeld shape.now (entry coefs.now.c) assign.now.w exps.now }
    ensures { rows.new ≡ listed 6 0 (row_at shape.now (code_by shape.now (entry coefs.now.c) exps.now t) c) }
{
    let at = usize::from(c);
    let span = shape.span(c);
    let mut pointers = [0; 256];
    for b in 0..6u8 {
        let block = usize::from(b);
        point_block(shape, assign, exps, t, c, b, &mut pointers);
        write_row(
            &coefs.c[at][block],
            &exps[at][block],
            &pointers,
            &span,
            &mut rows[block],
        );
    }
}

/// The rows of a channel that isn't coded.
fn clear_channel(shape: &Shape, c: u8, rows: &mut [[u16; 256]; 6])
    requires { channels shape.now ≤ c }
    ensures { (f : ℕ → ℕ → ℕ → ℕ) → rows.new ≡ listed 6 0 (row_at shape.now f c) }
{
    *rows = [[0; 256]; 6];
}

/// The rows of channel `c`, coded or not.
fn fill_channel(
    shape: &Shape,
    coefs: &Coefs,
    assign: &Assign,
    exps: &[[[u8; 256]; 6]; 7],
    t: u16,
    c: u8,
    rows: &mut [[u16; 256]; 6],
)
    requires offset { t ≤ 1023 }
    requires assigned { IsAssignmentOf shape.now assign.now.w }
    requires held { AreHeld shape.now (entry coefs.now.c) assign.now.w exps.now }
    ensures { rows.new ≡ listed 6 0 (row_at shape.now (code_by shape.now (entry coefs.now.c) exps.now t) c) }
{
    if c < shape.coded() {
        write_channel(shape, coefs, assign, exps, t, c, rows);
    } else {
        clear_channel(shape, c, rows);
    }
}

/// The codes of a frame: of each coded channel, and 0 elsewhere.
pub fn write_codes(
    shape: &Shape,
    coefs: &Coefs,
    assign: &Assign,
    exps: &[[[u8; 256]; 6]; 7],
    t: u16,
    out: &mut [[[u16; 256]; 6]; 7],
)
    requires offset { t ≤ 1023 }
    requires assigned { IsAssignmentOf shape.now assign.now.w }
    requires held { AreHeld shape.now (entry coefs.now.c) assign.now.w exps.now }
    ensures { out.new ≡ in_spans shape.now (code_by shape.now (entry coefs.now.c) exps.now t) }
{
    for c in 0..7u8 {
        fill_channel(shape, coefs, assign, exps, t, c, &mut out[usize::from(c)]);
    }
}
