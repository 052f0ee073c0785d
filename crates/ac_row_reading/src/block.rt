//! Reading a block.
ghost use Rattle.std.specs.Prelude.{◌≡◌, ◌≤◌, IfOk, IfErr, length};
ghost use Rattle.ac_codec.specs.Meaning.{HasRead, ReadsEach, RefusesEach};
ghost use Rattle.ac_codec.specs.Codec.{Codec, Gives, GivesPart};
ghost use Rattle.ac_rows.specs.HeadRows.{head_fields};
ghost use Rattle.ac_rows.specs.BlockRows.{PairFits, coupling_now, block_rows, block_fields, whole_block, AreLawful};

use crate::allocation::{read_allocation, read_rest};
use crate::codes::read_codes;
use crate::exponents::read_exponents;
use crate::shared::read_shared;
use crate::start::read_start;
use crate::strategy::read_strategy;
use ac_bits::BitSource;
use ac_codec::Refused;
use ac_codec::read::pass;
use ac_rows::channels::{full_channels, stereo};
use ac_rows::free_bits::skipped;
use ac_rows::groups::{Coupling, Known, Strategy};
use ac_rows::joining::join;
use ac_rows::known::{coupling_of, known, over};
use ac_rows::{Block, Head};

/// The coupling that holds in a block with this strategy.
fn coupling_now(known: &Known, s: &Strategy) -> Coupling
    ensures { result ≡ coupling_now known.now s.now }
{
    coupling_of(&over(s, &known.strategy))
}

/// The groups of fields of a block.
#[tactic(auto, unfolding(ac_rows::specs::BlockRows::block_rows, ac_codec::specs::Codec::pair, ac_codec::specs::Codec::shaped))]
fn read_groups(
    source: &mut BitSource,
    full: u8,
    stereo: bool,
    low: bool,
    known: &Known,
) -> Result<Block, Refused>
    requires full { full ≤ 5 }
    requires range { PairFits known.now.strategy.cplbegf known.now.strategy.cplendf }
    ensures { Gives result source.new ((block_rows full stereo low known.now).read source.old) }
{
    let a = read_start(source, full)?;
    let b = read_strategy(source, full, stereo, known.begun)?;
    let coupling = coupling_now(known, &b);
    let c = read_shared(source, known, &coupling)?;
    let d = read_codes(source, full, stereo, low, known, &coupling)?;
    let e = read_exponents(source, full, &coupling, &d)?;
    let f = read_allocation(source, full, low, known, &coupling)?;
    let g = read_rest(source)?;
    Ok(join(&a, &b, &c, &d, &e, &f, &g))
}

/// All fields of a block.
fn read_fields(head: &Head, earlier: &[Block], source: &mut BitSource) -> Result<Block, Refused>
    requires channels { head.now.acmod ≤ 7 }
    requires earlier { AreLawful head.now earlier.now }
    ensures { Gives result source.new ((block_fields head.now earlier.now).read source.old) }
{
    let full = full_channels(head.acmod);
    let stereo = stereo(head.acmod);
    read_groups(source, full, stereo, head.lfeon, &known(earlier))
}

/// All fields of a block and its skip bytes.
#[tactic(auto, unfolding(ac_rows::specs::BlockRows::whole_block, ac_codec::specs::Codec::pair))]
fn read_whole(head: &Head, earlier: &[Block], source: &mut BitSource) -> Result<Block, Refused>
    requires channels { head.now.acmod ≤ 7 }
    requires earlier { AreLawful head.now earlier.now }
    ensures { GivesPart (λ x. x.0) result source.new ((whole_block head.now earlier.now).read source.old) }
{
    let block = read_fields(head, earlier, source)?;
    pass(source, skipped(block.skipl))?;
    Ok(block)
}

/// The fields of a block before its mantissas (A/52 5.3.3), behind the blocks of this frame that were read before; the
/// skip bytes are passed over.
///
/// # Errors
///
/// The refusal of the first field, in the order of the bits, that no lawful block has there. The source then stands where
/// that field began.
pub fn read_block(head: &Head, earlier: &[Block], source: &mut BitSource) -> Result<Block, Refused>
    requires head { head_fields.Lawful head.now }
    requires earlier { AreLawful head.now earlier.now }
    requires count { length earlier.now ≤ 5 }
    ensures value { IfOk result (λ a. HasRead (whole_block head.now earlier.now) source.old source.new a) }
    ensures complete { ReadsEach (whole_block head.now earlier.now) source.old source.new result }
    ensures cause { IfErr result (λ e. (whole_block head.now earlier.now).Refuses source.old e source.new) }
    ensures refused { RefusesEach (whole_block head.now earlier.now) source.old source.new result }
{
    read_whole(head, earlier, source)
}
