//! The sixths of a run whose exponents differ by at most 2 from bin to bin, two bins at a time from bin 49 on.
ghost use Rattle.std.specs.Prelude.{◌≡◌, ◌<◌, ◌≤◌, ◌+◌, ◌*◌, ◌-◌, ◌^◌, ℕ, List, slice_index};
ghost use Rattle.ac_base.specs.Shape.{IsSpan};
ghost use Rattle.ac_base.specs.Allocation.{bndtab_list};
ghost use Rattle.ac_alloc.specs.declared.params.Params.{Params};
ghost use Rattle.ac_sixths.specs.Runs.{IsSixthTable, IsRun, column, entry_at, total_from, span_sixths};
ghost use Rattle.ac_sixths.specs.Pairs.{IsPairTable, ArePairs};

use crate::bands::{after_whole, first_whole, near};
use crate::group::{add_times, group};
use crate::pair_table::PairTable;
use crate::pairs::pair_group;
use crate::table::SixthTable;
use crate::window::sums;
use ac_base::{Span, band_start};

/// Adds the sums of the entries of the bands from `from` up to but not `to`, from offset `t0` on.
fn whole_pairs(
    f: &[u16; 4128],
    two: &[u16; 20640],
    levels: &[u8; 256],
    pairs: &[u16; 256],
    bases: &[[u16; 64]; 50],
    row: usize,
    from: usize,
    to: usize,
    t0: usize,
    six: &mut [u16; 16],
)
    requires table { IsSixthTable f.now }
    requires two { IsPairTable two.now }
    requires order { from ≤ to }
    requires to { to ≤ 50 }
    requires column { row < 64 }
    requires t0 { t0 ≤ 1008 }
    requires small { (i : ℕ) → i < 4128 → slice_index f.now i ≤ 96 }
    requires small_two { (i : ℕ) → i < 20640 → slice_index two.now i ≤ 192 }
    requires levels { (k : ℕ) → slice_index bndtab_list from ≤ k → k < slice_index bndtab_list to → slice_index levels.now k ≤ 192 }
    requires bases { (b : ℕ) → b < 50 → slice_index (column bases.now row) b ≤ 2232 }
    requires pairs { ArePairs (slice_index bndtab_list from) (slice_index bndtab_list to) levels.now pairs.now }
    requires room { (j : ℕ) → j < 16 → slice_index six.old j + 96 * (slice_index bndtab_list to - slice_index bndtab_list from) < 2 ^ 16 }
    ensures { (j : ℕ) → j < 16
        → slice_index six.new j ≡ slice_index six.old j
        + total_from (entry_at f.now levels.now (column bases.now row) (t0 + j)) (slice_index bndtab_list from)
        (slice_index bndtab_list to - slice_index bndtab_list from) }
{
    let three = near(28, from, to);
    let six_bins = near(35, from, to);
    let twelve = near(41, from, to);
    let last = near(45, from, to);
    group::<1, 1>(f, levels, bases, row, from, three, t0, six);
    group::<3, 1>(f, levels, bases, row, three, six_bins, t0, six);
    pair_group::<6>(two, pairs, bases, row, six_bins, twelve, t0, six);
    pair_group::<12>(two, pairs, bases, row, twelve, last, t0, six);
    pair_group::<24>(two, pairs, bases, row, last, to, t0, six);
}

/// The sums of the entries of the bins from `start` up to but not `end`, from offset `t0` on.
fn pair_sums(
    f: &[u16; 4128],
    two: &[u16; 20640],
    levels: &[u8; 256],
    pairs: &[u16; 256],
    bases: &[[u16; 64]; 50],
    row: usize,
    start: u8,
    end: u8,
    t0: usize,
) -> [u16; 16]
    requires table { IsSixthTable f.now }
    requires two { IsPairTable two.now }
    requires order { start < end }
    requires end { end ≤ 253 }
    requires column { row < 64 }
    requires t0 { t0 ≤ 1008 }
    requires small { (i : ℕ) → i < 4128 → slice_index f.now i ≤ 96 }
    requires small_two { (i : ℕ) → i < 20640 → slice_index two.now i ≤ 192 }
    requires levels { (k : ℕ) → start ≤ k → k < end → slice_index levels.now k ≤ 192 }
    requires bases { (b : ℕ) → b < 50 → slice_index (column bases.now row) b ≤ 2232 }
    requires pairs { ArePairs start end levels.now pairs.now }
    ensures { (j : ℕ) → j < 16
        → slice_index result j ≡ total_from (entry_at f.now levels.now (column bases.now row) (t0 + j)) start (end - start) }
{
    let whole = first_whole(start);
    let after = after_whole(end);
    if whole < after {
        let mut six = sums(
            f,
            levels,
            bases,
            row,
            start as usize,
            band_start(whole as u8) as usize,
            t0,
        );
        whole_pairs(
            f, two, levels, pairs, bases, row, whole, after, t0, &mut six,
        );
        let rest = sums(
            f,
            levels,
            bases,
            row,
            band_start(after as u8) as usize,
            end as usize,
            t0,
        );
        add_times::<1>(&mut six, &rest);
        six
    } else {
        sums(f, levels, bases, row, start as usize, end as usize, t0)
    }
}

/// The same as `windows`, but faster, for levels with the codes of their pairs.
pub fn pair_windows(
    table: &SixthTable,
    two: &PairTable,
    span: &Span,
    levels: &[u8; 256],
    pairs: &[u16; 256],
    bases: &[[u16; 64]; 50],
    row: usize,
    t0: u16,
) -> [u16; 16]
    requires table { IsSixthTable table.now.f }
    requires two { IsPairTable two.now.f }
    requires span { IsSpan span.now }
    requires column { row < 64 }
    requires t0 { t0 ≤ 1008 }
    requires levels { (k : ℕ) → span.now.start ≤ k → k < span.now.end → slice_index levels.now k ≤ 192 }
    requires bases { (b : ℕ) → b < 50 → slice_index (column bases.now row) b ≤ 2232 }
    requires pairs { ArePairs span.now.start span.now.end levels.now pairs.now }
    ensures { (p : Params) (exps : List ℕ) → IsRun p span.now exps levels.now (column bases.now row) → (j : ℕ) → j < 16
        → slice_index result j ≡ span_sixths p span.now exps (t0 + j) }
{
    let mut x = pair_sums(
        &table.f,
        &two.f,
        levels,
        pairs,
        bases,
        row,
        span.start,
        span.end,
        t0 as usize,
    );
    if t0 == 0 {
        x[0] = 0;
    }
    x
}
