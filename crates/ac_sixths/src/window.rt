//! The sixths of a run at sixteen neighbouring offsets.
ghost use Rattle.std.specs.Prelude.{◌≡◌, ◌<◌, ◌≤◌, ◌+◌, ◌*◌, ◌-◌, ◌^◌, ℕ, List, slice_index};
ghost use Rattle.ac_base.specs.Shape.{IsSpan};
ghost use Rattle.ac_alloc.specs.declared.params.Params.{Params};
ghost use Rattle.ac_sixths.specs.Runs.{IsSixthTable, IsRun, column, entry_at, total_from, span_sixths};

use crate::column::base_at;
use crate::table::SixthTable;
use ac_base::{Span, band_of};

/// Adds sixteen neighbouring entries of the table.
#[inline]
pub(crate) fn add_all(x: &mut [u16; 16], f: &[u16; 4128], i: usize)
    requires within { i ≤ 4112 }
    requires room { (j : ℕ) → j < 16 → slice_index x.old j + slice_index f.now (i + j) < 2 ^ 16 }
    ensures { (j : ℕ) → j < 16 → slice_index x.new j ≡ slice_index x.old j + slice_index f.now (i + j) }
{
    for j in 0..16usize {
        x[j] += f[i + j];
    }
}

/// The sums of the entries of the bins from `start` up to but not `end`, from offset `t0` on.
#[inline(never)]
pub(crate) fn sums(
    f: &[u16; 4128],
    levels: &[u8; 256],
    bases: &[[u16; 64]; 50],
    row: usize,
    start: usize,
    end: usize,
    t0: usize,
) -> [u16; 16]
    requires order { start ≤ end }
    requires end { end ≤ 253 }
    requires column { row < 64 }
    requires t0 { t0 ≤ 1008 }
    requires small { (i : ℕ) → i < 4128 → slice_index f.now i ≤ 96 }
    requires levels { (k : ℕ) → start ≤ k → k < end → slice_index levels.now k ≤ 192 }
    requires bases { (b : ℕ) → b < 50 → slice_index (column bases.now row) b ≤ 2232 }
    ensures { (j : ℕ) → j < 16
        → slice_index result j ≡ total_from (entry_at f.now levels.now (column bases.now row) (t0 + j)) start (end - start) }
{
    let mut x = [0u16; 16];
    for k in start..end {
        add_all(
            &mut x,
            f,
            base_at(bases, band_of(k as u8) as usize, row) as usize + 4 * levels[k] as usize + t0,
        );
    }
    x
}

/// What the mantissas of a run cost in a block, in sixths of a bit, at the offsets from `t0` to `t0 + 15`: by the levels of
/// its bins, and the bases of its masks, which stand by band in a column of a table.
pub fn windows(
    table: &SixthTable,
    span: &Span,
    levels: &[u8; 256],
    bases: &[[u16; 64]; 50],
    row: usize,
    t0: u16,
) -> [u16; 16]
    requires table { IsSixthTable table.now.f }
    requires span { IsSpan span.now }
    requires column { row < 64 }
    requires t0 { t0 ≤ 1008 }
    requires levels { (k : ℕ) → span.now.start ≤ k → k < span.now.end → slice_index levels.now k ≤ 192 }
    requires bases { (b : ℕ) → b < 50 → slice_index (column bases.now row) b ≤ 2232 }
    ensures { (p : Params) (exps : List ℕ) → IsRun p span.now exps levels.now (column bases.now row) → (j : ℕ) → j < 16
        → slice_index result j ≡ span_sixths p span.now exps (t0 + j) }
{
    let mut x = sums(
        &table.f,
        levels,
        bases,
        row,
        span.start as usize,
        span.end as usize,
        t0 as usize,
    );
    if t0 == 0 {
        x[0] = 0;
    }
    x
}
