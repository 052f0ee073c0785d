//! What is held of the runs of a coded channel.
ghost use Rattle.std.specs.Prelude.{◌<◌};
ghost use Rattle.ac_expo.specs.Raw.{channels};
ghost use Rattle.ac_masks.specs.Adding.{IsAddTable};
ghost use Rattle.ac_windows.specs.Held.{IsHeld};

use crate::masks::mask_rows;
use ac_alloc::Params;
use ac_base::Shape;
use ac_cost::row_count;
use ac_expo::RawExps;
use ac_levels::fill_rows;
use ac_masks::AddTable;

/// The levels of the exponents of all runs of a channel by row and bin, and the bases of their masks by band and row.
#[derive(Clone, Copy)]
pub(crate) struct ChannelRows {
    pub(crate) levels: [[u8; 256]; 63],
    pub(crate) bases: [[u16; 64]; 50],
}

/// Those of coded channel c.
pub(crate) fn hold_channel(
    adds: &AddTable,
    shape: &Shape,
    raw: &RawExps,
    c: u8,
    out: &mut ChannelRows,
)
    requires adds { IsAddTable adds.now.rises }
    requires channel { c < channels shape.now }
    ensures { IsHeld shape.now raw.now.e c out.new.levels out.new.bases }
{
    let span = shape.span(c);
    fill_rows(&raw.e[c as usize], &span, &mut out.levels);
    mask_rows(
        adds,
        &Params::encoder(shape.fscod),
        &span,
        row_count(span.lead),
        &out.levels,
        &mut out.bases,
    );
}
