//! The fields that are the same in all frames of a stream.
ghost use Rattle.std.specs.Prelude.{◌≡◌, IfSome, IfNone};
ghost use Rattle.ac_dec.specs.Decoding.{IsFirstChange};
ghost use Rattle.ac_dec.specs.Inside.{IsKindOf};

use crate::kind::Kind;
use ac_codec::Row;
use ac_rows::Head;

/// Those of a head.
pub fn kind(head: &Head) -> Kind
    ensures { IsKindOf head.now result }
{
    Kind {
        fscod: head.fscod,
        acmod: head.acmod,
        lfe: head.lfeon,
    }
}

/// The first that differs.
pub fn first_change(first: &Kind, now: &Kind) -> Option<Row>
    ensures change { IfSome result (λ row. IsFirstChange first.now now.now row) }
    ensures same { IfNone result (first.now ≡ now.now) }
{
    if first.fscod != now.fscod {
        Some(Row::Fscod)
    } else if first.acmod != now.acmod {
        Some(Row::Acmod)
    } else if first.lfe != now.lfe {
        Some(Row::Lfeon)
    } else {
        None
    }
}
