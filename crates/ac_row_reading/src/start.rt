//! The first fields of a block.
ghost use Rattle.ac_codec.specs.Codec.{Gives};
ghost use Rattle.ac_rows.specs.BlockRows.{clear_each, start};

use ac_bits::BitSource;
use ac_codec::Refused;
use ac_codec::read::{bit, optional, slot_one_where};
use ac_rows::groups::Start;

/// A bit of each channel that has to be 0.
#[tactic(auto, unfolding(ac_rows::specs::BlockRows::clear_each, ac_codec::specs::Codec::each, ac_codec::specs::Codec::cons, ac_codec::specs::Codec::absent))]
fn read_clear(source: &mut BitSource, full: u8, refused: Refused) -> Result<[bool; 5], Refused>
    ensures { Gives result source.new ((clear_each full refused).read source.old) }
{
    let first = slot_one_where(source, 0 < full, false, refused)?;
    let second = slot_one_where(source, 1 < full, false, refused)?;
    let third = slot_one_where(source, 2 < full, false, refused)?;
    let fourth = slot_one_where(source, 3 < full, false, refused)?;
    let fifth = slot_one_where(source, 4 < full, false, refused)?;
    Ok([first, second, third, fourth, fifth])
}

/// blksw, dithflag and dynrng.
#[tactic(auto, unfolding(ac_rows::specs::BlockRows::start, ac_codec::specs::Codec::pair, ac_codec::specs::Codec::shaped))]
pub fn read_start(source: &mut BitSource, full: u8) -> Result<Start, Refused>
    ensures { Gives result source.new ((start full).read source.old) }
{
    let blksw = read_clear(source, full, Refused::ShortBlock)?;
    let dithflag = read_clear(source, full, Refused::Dither)?;
    let dynrnge = bit(source)?;
    let dynrng = optional(source, dynrnge, 8)?;
    Ok(Start {
        blksw,
        dithflag,
        dynrnge,
        dynrng,
    })
}
