//! The sixths of a run from its parameters and exponents.
ghost use Rattle.std.specs.Prelude.{◌≡◌, ◌<◌, ◌≤◌, ◌+◌, ◌-◌, ℕ, slice_index};
ghost use Rattle.ac_base.specs.Shape.{IsSpan};
ghost use Rattle.ac_alloc.specs.Codes.{floor_of};
ghost use Rattle.ac_base.specs.Spans.{IsKind};
ghost use Rattle.ac_expo.specs.Greatest.{IsSpellable};
ghost use Rattle.ac_alloc.specs.Keys.{lowest};
ghost use Rattle.ac_sixths.specs.Runs.{IsSixthTable, span_sixths};

use crate::by_bands::kind_windows;
use crate::held::{bases, levels};
use crate::table::SixthTable;
use ac_alloc::{Mask, Params};
use ac_base::Span;

/// What the mantissas of a run cost in a block, in sixths of a bit, at the offsets from `t0` to `t0 + 15`.
pub fn run_windows(
    table: &SixthTable,
    p: &Params,
    span: &Span,
    kind: u8,
    exps: &[u8; 256],
    t0: u16,
) -> [u16; 16]
    requires table { IsSixthTable table.now.f }
    requires floor { floor_of p.now ≡ lowest }
    requires span { IsSpan span.now }
    requires kind { IsKind kind span.now }
    requires exps { IsSpellable kind span.now exps.now }
    requires t0 { t0 ≤ 1008 }
    ensures { (j : ℕ) → j < 16 → slice_index result j ≡ span_sixths p.now span.now exps.now (t0 + j) }
{
    let mask = Mask::of(p, span, exps);
    let mut held = [0u8; 256];
    levels(exps, span.start as usize, span.end as usize, &mut held);
    let mut under = [[0u16; 64]; 50];
    bases(&mask, 0, &mut under);
    kind_windows(table, span, kind, &held, &under, 0, t0)
}
