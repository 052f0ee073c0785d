//! The masks of the runs of a channel.
ghost use Rattle.std.specs.Prelude.{◌<◌, ◌≤◌, ℕ, [], slice_index_or};
ghost use Rattle.ac_base.specs.Shape.{IsSpan};
ghost use Rattle.ac_masks.specs.Adding.{IsAddTable};
ghost use Rattle.ac_sixths.specs.Runs.{column};
ghost use Rattle.ac_windows.specs.Held.{AreBases};

use ac_alloc::Params;
use ac_base::Span;
use ac_masks::{AddTable, fill_bases};

/// Writes the bases of the masks of the first `rows` runs, each to the column of its row; further columns are written too.
pub(crate) fn mask_rows(
    adds: &AddTable,
    p: &Params,
    span: &Span,
    rows: u8,
    levels: &[[u8; 256]; 63],
    out: &mut [[u16; 64]; 50],
)
    requires adds { IsAddTable adds.now.rises }
    requires span { IsSpan span.now }
    requires rows { rows ≤ 63 }
    ensures { (row : ℕ) → row < rows → AreBases p.now span.now (slice_index_or levels.now row []) (column out.new row) }
{
    fill_bases(adds, p, span, levels, out);
}
