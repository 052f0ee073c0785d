//! Writing the first and the last fields of a block.
ghost use Rattle.std.specs.Prelude.{◌≡◌, ◌+◌, ◌≤◌, length};
ghost use Rattle.ac_bits.specs.Bits.{Appends};
ghost use Rattle.ac_codec.specs.declared.refused.Refused.TheVariants.{ShortBlock};
ghost use Rattle.ac_rows.specs.Groups.{start_of, rest_of};
ghost use Rattle.ac_rows.specs.BlockRows.{clear_each, start, rest};

use ac_bits::BitSink;
use ac_codec::write::{put_bit, put_optional, put_optional_wide, put_slot_bit};
use ac_rows::Block;

/// A bit of each channel.
#[tactic(auto, using(ac_codec::proofs::Lengths::writing), unfolding(ac_rows::specs::BlockRows::clear_each, ac_codec::specs::Codec::each, ac_codec::specs::Codec::cons, ac_codec::specs::Codec::absent, ac_codec::specs::Codec::slot, ac_codec::specs::Codec::tested_bit))]
fn write_bits(values: &[bool; 5], full: u8, sink: &mut BitSink)
    requires room { length sink.old + length ((clear_each full ShortBlock).spell values.now) ≤ 30720 }
    ensures adds { Appends sink.old sink.new ((clear_each full ShortBlock).spell values.now) }
    ensures len { length sink.new ≡ length sink.old + length ((clear_each full ShortBlock).spell values.now) }
{
    let [first, second, third, fourth, fifth] = *values;
    put_slot_bit(sink, 0 < full, first);
    put_slot_bit(sink, 1 < full, second);
    put_slot_bit(sink, 2 < full, third);
    put_slot_bit(sink, 3 < full, fourth);
    put_slot_bit(sink, 4 < full, fifth);
}

/// blksw, dithflag and dynrng.
#[tactic(auto, using(ac_codec::proofs::Lengths::writing), unfolding(ac_rows::specs::BlockRows::start, ac_rows::specs::BlockRows::clear_each, ac_codec::specs::Codec::each, ac_codec::specs::Codec::cons, ac_codec::specs::Codec::absent, ac_codec::specs::Codec::slot, ac_codec::specs::Codec::pair, ac_codec::specs::Codec::shaped, ac_codec::specs::Codec::field, ac_codec::specs::Codec::given, ac_codec::specs::Codec::tested_bit))]
pub fn write_start(b: &Block, full: u8, sink: &mut BitSink)
    requires lawful { (start full).Lawful (start_of b.now) }
    requires room { length sink.old + length ((start full).spell (start_of b.now)) ≤ 30720 }
    ensures adds { Appends sink.old sink.new ((start full).spell (start_of b.now)) }
    ensures len { length sink.new ≡ length sink.old + length ((start full).spell (start_of b.now)) }
{
    write_bits(&b.blksw, full, sink);
    write_bits(&b.dithflag, full, sink);
    put_bit(sink, b.dynrnge);
    put_optional(sink, b.dynrng, 8);
}

/// deltbaie and skipl.
#[tactic(auto, using(ac_codec::proofs::Lengths::writing), unfolding(ac_rows::specs::BlockRows::rest, ac_codec::specs::Codec::pair, ac_codec::specs::Codec::shaped, ac_codec::specs::Codec::field, ac_codec::specs::Codec::given, ac_codec::specs::Codec::tested_bit))]
pub fn write_rest(b: &Block, sink: &mut BitSink)
    requires lawful { rest.Lawful (rest_of b.now) }
    requires room { length sink.old + length (rest.spell (rest_of b.now)) ≤ 30720 }
    ensures adds { Appends sink.old sink.new (rest.spell (rest_of b.now)) }
    ensures len { length sink.new ≡ length sink.old + length (rest.spell (rest_of b.now)) }
{
    put_bit(sink, b.deltbaie);
    put_bit(sink, b.skiple);
    put_optional_wide(sink, b.skipl, 9);
}
