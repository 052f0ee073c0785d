//! Writing a block.
ghost use Rattle.std.specs.Prelude.{◌≡◌, ◌+◌, ◌≤◌, false, length, replicate};
ghost use Rattle.ac_bits.specs.Bits.{Appends};
ghost use Rattle.ac_rows.specs.HeadRows.{head_fields};
ghost use Rattle.ac_rows.specs.Bits.{block_bits, BlockIsLawful};
ghost use Rattle.ac_rows.specs.BlockRows.{block_fields, whole_block, skip_bits};

use crate::allocation::write_allocation;
use crate::codes::write_codes;
use crate::exponents::write_exponents;
use crate::shared::write_shared;
use crate::start::{write_rest, write_start};
use crate::strategy::write_strategy;
use ac_bits::BitSink;
use ac_codec::write::put_zeros;
use ac_rows::channels::full_channels;
use ac_rows::free_bits::skipped;
use ac_rows::{Block, Head};

/// The groups of fields of a block with so many full channels.
fn write_groups(b: &Block, full: u8, sink: &mut BitSink)
    requires lawful { BlockIsLawful full b.now }
    requires room { length sink.old + length (block_bits full b.now) ≤ 30720 }
    ensures adds { Appends sink.old sink.new (block_bits full b.now) }
    ensures len { length sink.new ≡ length sink.old + length (block_bits full b.now) }
{
    write_start(b, full, sink);
    write_strategy(b, sink);
    write_shared(b, sink);
    write_codes(b, full, sink);
    write_exponents(b, sink);
    write_allocation(b, sink);
    write_rest(b, sink);
}

/// Appends the fields of a block before its mantissas, behind these blocks of this frame, and the skip bytes as 0
/// (A/52 5.3.3).
///
/// The block is lawful behind these, and the sink has room.
#[tactic(auto, using(ac_codec::proofs::Lengths::writing))]
pub fn write_block(head: &Head, earlier: &[Block], block: &Block, sink: &mut BitSink)
    requires head { head_fields.Lawful head.now }
    requires lawful { (block_fields head.now earlier.now).Lawful block.now }
    requires room { length sink.old + length
        ((whole_block head.now earlier.now).spell (block.now, replicate (skip_bits block.now) false)) ≤ 30720 }
    ensures adds { Appends sink.old sink.new ((whole_block head.now earlier.now).spell (block.now, replicate (skip_bits block.now) false)) }
    ensures len { length sink.new ≡ length sink.old + length
        ((whole_block head.now earlier.now).spell (block.now, replicate (skip_bits block.now) false)) }
{
    write_groups(block, full_channels(head.acmod), sink);
    put_zeros(sink, skipped(block.skipl));
}
