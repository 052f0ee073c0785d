//! Reading the exponents of one channel, as a field.
ghost use Rattle.std.specs.Prelude.{◌≡◌, ◌+◌, ◌*◌, ◌≤◌, Ok, length};
ghost use Rattle.ac_base.specs.Shape.{IsSpan};
ghost use Rattle.ac_base.specs.Spans.{IsKind};
ghost use Rattle.ac_codec.specs.Codec.{Gives};
ghost use Rattle.ac_rows.specs.Spelled.{groups_row, spelled_row};

use ac_base::Span;
use ac_bits::BitSource;
use ac_codec::Refused;
use ac_codec::read::small;
use ac_expo::{Spelled, check, groups};

/// A first exponent and `count` groups.
fn take_spelled(source: &mut BitSource, count: u8) -> Result<Spelled, Refused>
    requires { count ≤ 84 }
    ensures { Gives result source.new ((groups_row count).read source.old) }
{
    let first = small(source, 4)?;
    let mut spelled = Spelled::new(first);
    for _place in 0..count {
        let group = small(source, 7)?;
        spelled.push(group);
    }
    Ok(spelled)
}

/// The same where there are enough bits.
fn whole_spelled(source: &mut BitSource, count: u8) -> Spelled
    requires bound { count ≤ 84 }
    requires enough { 4 + 7 * count ≤ length source.old }
    ensures { (groups_row count).read source.old ≡ Ok (result, source.new) }
{
    match take_spelled(source, count) {
        Ok(spelled) => spelled,
        Err(_) => Spelled::new(0),
    }
}

/// The exponents of a coded channel in a kind: refused where they end before they are whole, and else at the first group
/// that gives no exponents.
pub fn read_spelled(
    source: &mut BitSource,
    kind: u8,
    span: &Span,
    channel: u8,
) -> Result<Spelled, Refused>
    requires kind { IsKind kind span.now }
    requires span { IsSpan span.now }
    ensures { Gives result source.new ((spelled_row kind span.now channel).read source.old) }
{
    let count = groups(kind, span);
    if source.left() < 4 + 7 * u32::from(count) {
        return Err(Refused::OutOfBits);
    }
    let before = source.copy();
    let spelled = whole_spelled(source, count);
    match check(kind, span, &spelled) {
        Ok(()) => Ok(spelled),
        Err(bad) => {
            *source = before;
            Err(Refused::BadExponent {
                channel,
                place: bad.place,
            })
        }
    }
}
