//! The sixths of all runs of a channel.
ghost use Rattle.std.specs.Prelude.{◌≡◌, ◌<◌, ◌≤◌, ◌⊎◌, ◌+◌, ◌/◌, ℕ, List, [], slice_index, slice_index_or};
ghost use Rattle.ac_base.specs.Shape.{IsSpan};
ghost use Rattle.ac_alloc.specs.declared.params.Params.{Params};
ghost use Rattle.ac_sixths.specs.Runs.{IsSixthTable, IsRun, column, span_sixths, AreHeld};
ghost use Rattle.ac_sixths.specs.Pairs.{IsPairTable, ArePairs};

use crate::by_bands::kind_windows;
use crate::by_pairs::pair_windows;
use crate::pair_table::PairTable;
use crate::table::SixthTable;
use ac_base::Span;

/// Writes what the mantissas of each run cost in a block, in sixths of a bit, at the offsets from `t0` to `t0 + 15`. The
/// rows are 21 runs of kind 1, then 21 of kind 2, then 21 of kind 3, of which those from `from` up to but not `to` are
/// taken; each has a column of the bases.
pub fn row_windows(
    table: &SixthTable,
    span: &Span,
    from: usize,
    to: usize,
    levels: &[[u8; 256]; 63],
    bases: &[[u16; 64]; 50],
    t0: u16,
    six: &mut [[u16; 16]; 63],
)
    requires table { IsSixthTable table.now.f }
    requires span { IsSpan span.now }
    requires order { from ≤ to }
    requires to { to ≤ 63 }
    requires t0 { t0 ≤ 1008 }
    requires held { (l : ℕ) → from ≤ l → l < to → AreHeld (l / 21 + 1) span.now (slice_index_or levels.now l []) (column bases.now l) }
    ensures rows { (l : ℕ) → from ≤ l → l < to → (p : Params) (exps : List ℕ)
        → IsRun p span.now exps (slice_index_or levels.now l []) (column bases.now l) → (j : ℕ) → j < 16
        → slice_index (slice_index_or six.new l []) j ≡ span_sixths p span.now exps (t0 + j) }
    ensures rest { (l : ℕ) → (l < from) ⊎ (to ≤ l) → slice_index_or six.new l [] ≡ slice_index_or six.old l [] }
{
    for l in from..to {
        six[l] = kind_windows(table, span, (l / 21) as u8 + 1, &levels[l], bases, l, t0);
    }
}

/// The same for the first `rows` rows, which are of kind 1, two bins at a time.
pub fn pair_rows(
    table: &SixthTable,
    two: &PairTable,
    span: &Span,
    rows: usize,
    levels: &[[u8; 256]; 63],
    pairs: &[[u16; 256]; 21],
    bases: &[[u16; 64]; 50],
    t0: u16,
    six: &mut [[u16; 16]; 63],
)
    requires table { IsSixthTable table.now.f }
    requires two { IsPairTable two.now.f }
    requires span { IsSpan span.now }
    requires rows { rows ≤ 21 }
    requires t0 { t0 ≤ 1008 }
    requires held { (l : ℕ) → l < rows → AreHeld 1 span.now (slice_index_or levels.now l []) (column bases.now l) }
    requires pairs { (l : ℕ) → l < rows
        → ArePairs span.now.start span.now.end (slice_index_or levels.now l []) (slice_index_or pairs.now l []) }
    ensures rows { (l : ℕ) → l < rows → (p : Params) (exps : List ℕ)
        → IsRun p span.now exps (slice_index_or levels.now l []) (column bases.now l) → (j : ℕ) → j < 16
        → slice_index (slice_index_or six.new l []) j ≡ span_sixths p span.now exps (t0 + j) }
    ensures rest { (l : ℕ) → rows ≤ l → slice_index_or six.new l [] ≡ slice_index_or six.old l [] }
{
    for l in 0..rows {
        six[l] = pair_windows(table, two, span, &levels[l], &pairs[l], bases, l, t0);
    }
}
