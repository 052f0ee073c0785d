//! The raw exponents of a frame.
ghost use Rattle.std.specs.Prelude.{◌≡◌, ℕ, ◌≤◌, slice_index};
ghost use Rattle.ac_base.specs.Spans.{IsIn};
ghost use Rattle.ac_expo.specs.Raw.{AreRawInRow, AreRawInBlocks, AreRaw, AreSmallInRow, AreSmallInBlocks, AreSmall, AreSilentElsewhere, KeepsOutside, KeepsElsewhere};

use crate::raw::raw_exponent;
use ac_base::{Coefs, Shape, Span};

/// The raw exponents of a frame: coded channel, block, bin.
#[derive(Clone, Copy, Debug, PartialEq, Eq)]
pub struct RawExps {
    pub e: [[[u8; 256]; 6]; 7],
}

static SILENCE: RawExps = RawExps {
    e: [[[24; 256]; 6]; 7],
};

fn write_row(row: &[i32; 256], span: &Span, out: &mut [u8; 256])
    requires end { span.now.end ≤ 253 }
    requires small { AreSmallInRow span.now row.now }
    ensures value { AreRawInRow span.now row.now out.new }
    ensures rest { (k : ℕ) → (IsIn span.now k → ⊥) → slice_index out.new k ≡ slice_index out.old k }
{
    for k in usize::from(span.start)..usize::from(span.end) {
        out[k] = raw_exponent(row[k]);
    }
}

fn write_blocks(rows: &[[i32; 256]; 6], span: &Span, out: &mut [[u8; 256]; 6])
    requires end { span.now.end ≤ 253 }
    requires small { AreSmallInBlocks span.now rows.now }
    ensures value { AreRawInBlocks span.now rows.now out.new }
    ensures rest { KeepsOutside span.now out.old out.new }
{
    for b in 0..6 {
        write_row(&rows[b], span, &mut out[b]);
    }
}

fn write_channels(shape: &Shape, coefs: &Coefs, out: &mut RawExps)
    requires { AreSmall shape.now coefs.now.c }
    ensures value { AreRaw shape.now coefs.now.c out.new.e }
    ensures rest { KeepsElsewhere shape.now out.old.e out.new.e }
{
    for c in 0..shape.coded() {
        let at = usize::from(c);
        write_blocks(&coefs.c[at], &shape.span(c), &mut out.e[at]);
    }
}

impl RawExps {
    /// The raw exponents of coefficients of scale 2^24, in the spans of the coded channels; each other entry is 24.
    pub fn of(shape: &Shape, coefs: &Coefs) -> RawExps
        requires { AreSmall shape.now coefs.now.c }
        ensures value { AreRaw shape.now coefs.now.c result.e }
        ensures silent { AreSilentElsewhere shape.now result.e }
    {
        let silence = &SILENCE;
        let mut exps = *silence;
        write_channels(shape, coefs, &mut exps);
        exps
    }
}
