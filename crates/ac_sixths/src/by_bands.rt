//! The sixths of a run of one kind, by whole bands and the bins of cut ones.
ghost use Rattle.std.specs.Prelude.{◌≡◌, ◌<◌, ◌≤◌, ◌+◌, ◌*◌, ◌-◌, ◌/◌, min, max, ℕ, List, slice_index};
ghost use Rattle.ac_base.specs.Shape.{IsSpan};
ghost use Rattle.ac_base.specs.Allocation.{bndtab_list};
ghost use Rattle.ac_alloc.specs.declared.params.Params.{Params};
ghost use Rattle.ac_sixths.specs.Runs.{IsSixthTable, IsRun, column, entry_at, total_from, span_sixths, ArePieces, AreShared};
ghost use Rattle.ac_base.specs.Spans.{width};

use crate::bands::{after_whole, first_whole, whole_bands};
use crate::group::add_times;
use crate::table::SixthTable;
use crate::window::sums;
use ac_base::{Span, band_start};

/// The sums of the entries of the bins from `start` up to but not `end`, from offset `t0` on. The levels are equal in
/// each piece of `P` bins in whole bands of 6 bins, and of `Q` bins in wider ones.
#[inline]
fn band_sums<const P: usize, const Q: usize>(
    f: &[u16; 4128],
    levels: &[u8; 256],
    bases: &[[u16; 64]; 50],
    row: usize,
    start: u8,
    end: u8,
    t0: usize,
) -> [u16; 16]
    requires some_p { 0 < P }
    requires piece_p { P ≤ 4 }
    requires whole_6 { 6 ≡ 6 / P * P }
    requires some_q { 0 < Q }
    requires piece_q { Q ≤ 4 }
    requires whole_12 { 12 ≡ 12 / Q * Q }
    requires whole_24 { 24 ≡ 24 / Q * Q }
    requires order { start < end }
    requires end { end ≤ 253 }
    requires column { row < 64 }
    requires t0 { t0 ≤ 1008 }
    requires small { (i : ℕ) → i < 4128 → slice_index f.now i ≤ 96 }
    requires levels { (k : ℕ) → start ≤ k → k < end → slice_index levels.now k ≤ 192 }
    requires bases { (b : ℕ) → b < 50 → slice_index (column bases.now row) b ≤ 2232 }
    requires narrow { (from to : ℕ) → to ≤ 50 → start ≤ slice_index bndtab_list from → slice_index bndtab_list to ≤ end
        → ArePieces P (max 35 from) (min 41 to) levels.now }
    requires wide { (from to : ℕ) → to ≤ 50 → start ≤ slice_index bndtab_list from → slice_index bndtab_list to ≤ end
        → ArePieces Q (max 41 from) to levels.now }
    ensures { (j : ℕ) → j < 16
        → slice_index result j ≡ total_from (entry_at f.now levels.now (column bases.now row) (t0 + j)) start (end - start) }
{
    let whole = first_whole(start);
    let after = after_whole(end);
    if whole < after {
        let mut six = sums(
            f,
            levels,
            bases,
            row,
            start as usize,
            band_start(whole as u8) as usize,
            t0,
        );
        whole_bands::<P, Q>(f, levels, bases, row, whole, after, t0, &mut six);
        let rest = sums(
            f,
            levels,
            bases,
            row,
            band_start(after as u8) as usize,
            end as usize,
            t0,
        );
        add_times::<1>(&mut six, &rest);
        six
    } else {
        sums(f, levels, bases, row, start as usize, end as usize, t0)
    }
}

/// The same by the kind of the exponents.
fn kind_sums(
    f: &[u16; 4128],
    levels: &[u8; 256],
    bases: &[[u16; 64]; 50],
    row: usize,
    kind: u8,
    start: u8,
    end: u8,
    t0: usize,
) -> [u16; 16]
    requires order { start < end }
    requires end { end ≤ 253 }
    requires column { row < 64 }
    requires t0 { t0 ≤ 1008 }
    requires small { (i : ℕ) → i < 4128 → slice_index f.now i ≤ 96 }
    requires levels { (k : ℕ) → start ≤ k → k < end → slice_index levels.now k ≤ 192 }
    requires bases { (b : ℕ) → b < 50 → slice_index (column bases.now row) b ≤ 2232 }
    requires shared { AreShared (width kind) start end levels.now }
    ensures { (j : ℕ) → j < 16
        → slice_index result j ≡ total_from (entry_at f.now levels.now (column bases.now row) (t0 + j)) start (end - start) }
{
    if kind == 1 {
        band_sums::<1, 1>(f, levels, bases, row, start, end, t0)
    } else if kind == 2 {
        band_sums::<2, 2>(f, levels, bases, row, start, end, t0)
    } else {
        band_sums::<2, 4>(f, levels, bases, row, start, end, t0)
    }
}

/// The same as `windows`, but faster, for the levels of a kind of exponents.
pub fn kind_windows(
    table: &SixthTable,
    span: &Span,
    kind: u8,
    levels: &[u8; 256],
    bases: &[[u16; 64]; 50],
    row: usize,
    t0: u16,
) -> [u16; 16]
    requires table { IsSixthTable table.now.f }
    requires span { IsSpan span.now }
    requires column { row < 64 }
    requires t0 { t0 ≤ 1008 }
    requires levels { (k : ℕ) → span.now.start ≤ k → k < span.now.end → slice_index levels.now k ≤ 192 }
    requires bases { (b : ℕ) → b < 50 → slice_index (column bases.now row) b ≤ 2232 }
    requires shared { AreShared (width kind) span.now.start span.now.end levels.now }
    ensures { (p : Params) (exps : List ℕ) → IsRun p span.now exps levels.now (column bases.now row) → (j : ℕ) → j < 16
        → slice_index result j ≡ span_sixths p span.now exps (t0 + j) }
{
    let mut x = kind_sums(
        &table.f,
        levels,
        bases,
        row,
        kind,
        span.start,
        span.end,
        t0 as usize,
    );
    if t0 == 0 {
        x[0] = 0;
    }
    x
}
