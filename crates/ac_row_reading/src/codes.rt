//! Rematrixing, exponent strategies and bandwidths.
ghost use Rattle.std.specs.Prelude.{◌≡◌, ◌<◌, ◌&&◌, nat_lt};
ghost use Rattle.ac_codec.specs.Codec.{Gives, slot, field, reused};
ghost use Rattle.ac_codec.specs.declared.refused.Row.TheVariants.{Chexpstr};
ghost use Rattle.ac_rows.specs.Known.{may_keep_channel};
ghost use Rattle.ac_rows.specs.BlockRows.{rematrix_each, strategy_each, width_each, has_width, codes};

use ac_base::rematrix_bands;
use ac_bits::BitSource;
use ac_codec::read::{
    optional_bit, optional_limited, optional_reusing, optional_zero_where, slot_reusing,
};
use ac_codec::{Refused, Row};
use ac_rows::groups::{Codes, Coupling, Known};
use ac_rows::optional::{both, count_where, holds};
use ac_rows::reuse::{may_keep_channel, may_keep_shared};

/// The flag of each rematrix band.
#[tactic(auto, unfolding(ac_rows::specs::BlockRows::rematrix_each, ac_codec::specs::Codec::each, ac_codec::specs::Codec::cons, ac_codec::specs::Codec::absent))]
fn read_rematrix(source: &mut BitSource, bands: usize) -> Result<[Option<bool>; 4], Refused>
    ensures { Gives result source.new ((rematrix_each bands).read source.old) }
{
    let first = optional_bit(source, 0 < bands)?;
    let second = optional_bit(source, 1 < bands)?;
    let third = optional_bit(source, 2 < bands)?;
    let fourth = optional_bit(source, 3 < bands)?;
    Ok([first, second, third, fourth])
}

/// The exponent strategy of full channel i.
fn read_one(
    source: &mut BitSource,
    full: u8,
    known: &Known,
    c: &Coupling,
    i: u8,
) -> Result<u8, Refused>
    requires { i < 5 }
    ensures { Gives result source.new ((slot (nat_lt i full) 0 (field 2 (reused
        (may_keep_channel known.now c.now i) Chexpstr))).read source.old) }
{
    let may = may_keep_channel(known, c, usize::from(i));
    slot_reusing(source, i < full, 2, may, Row::Chexpstr)
}

/// The exponent strategies of the full channels.
#[tactic(auto, unfolding(ac_rows::specs::BlockRows::strategy_each, ac_codec::specs::Codec::each, ac_codec::specs::Codec::cons, ac_codec::specs::Codec::absent))]
fn read_each(
    source: &mut BitSource,
    full: u8,
    known: &Known,
    c: &Coupling,
) -> Result<[u8; 5], Refused>
    ensures { Gives result source.new ((strategy_each full known.now c.now).read source.old) }
{
    let first = read_one(source, full, known, c, 0)?;
    let second = read_one(source, full, known, c, 1)?;
    let third = read_one(source, full, known, c, 2)?;
    let fourth = read_one(source, full, known, c, 3)?;
    let fifth = read_one(source, full, known, c, 4)?;
    Ok([first, second, third, fourth, fifth])
}

/// Whether an uncoupled channel sends its bandwidth.
pub fn has_width(full: u8, c: &Coupling, chexpstr: &[u8; 5], i: u8) -> bool
    requires { i < 5 }
    ensures { result ≡ has_width full c.now chexpstr.now i }
{
    i < full && (!c.coupled[usize::from(i)] && 0 < chexpstr[usize::from(i)])
}

/// The bandwidths of the uncoupled channels with new exponents.
#[tactic(auto, unfolding(ac_rows::specs::BlockRows::width_each, ac_codec::specs::Codec::each, ac_codec::specs::Codec::cons, ac_codec::specs::Codec::absent))]
fn read_widths(
    source: &mut BitSource,
    full: u8,
    c: &Coupling,
    chexpstr: &[u8; 5],
) -> Result<[Option<u8>; 5], Refused>
    ensures { Gives result source.new ((width_each full c.now chexpstr.now).read source.old) }
{
    let first = optional_limited(source, has_width(full, c, chexpstr, 0), 6, 61, Row::Chbwcod)?;
    let second = optional_limited(source, has_width(full, c, chexpstr, 1), 6, 61, Row::Chbwcod)?;
    let third = optional_limited(source, has_width(full, c, chexpstr, 2), 6, 61, Row::Chbwcod)?;
    let fourth = optional_limited(source, has_width(full, c, chexpstr, 3), 6, 61, Row::Chbwcod)?;
    let fifth = optional_limited(source, has_width(full, c, chexpstr, 4), 6, 61, Row::Chbwcod)?;
    Ok([first, second, third, fourth, fifth])
}

/// Rematrixing, exponent strategies and bandwidths.
#[tactic(auto, unfolding(ac_rows::specs::BlockRows::codes, ac_codec::specs::Codec::pair, ac_codec::specs::Codec::shaped))]
pub fn read_codes(
    source: &mut BitSource,
    full: u8,
    stereo: bool,
    low: bool,
    known: &Known,
    c: &Coupling,
) -> Result<Codes, Refused>
    ensures { Gives result source.new ((codes full stereo low known.now c.now).read source.old) }
{
    let new = Refused::NoReuse(Row::Rematstr);
    let rematstr = optional_zero_where(source, stereo, known.begun, new)?;
    let rematflg = read_rematrix(
        source,
        count_where(holds(rematstr), usize::from(rematrix_bands(c.range))),
    )?;
    let may = may_keep_shared(known, c);
    let cplexpstr = optional_reusing(source, c.range.is_some(), 2, may, Row::Cplexpstr)?;
    let chexpstr = read_each(source, full, known, c)?;
    let new = Refused::NoReuse(Row::Lfeexpstr);
    let lfeexpstr = optional_zero_where(source, low, known.low, new)?;
    let chbwcod = read_widths(source, full, c, &chexpstr)?;
    Ok(Codes {
        rematstr,
        rematflg,
        cplexpstr,
        chexpstr,
        lfeexpstr,
        chbwcod,
    })
}
