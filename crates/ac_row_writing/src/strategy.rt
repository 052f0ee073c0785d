//! Writing the coupling strategy.
ghost use Rattle.std.specs.Prelude.{◌≡◌, ◌+◌, ◌≤◌, false, length};
ghost use Rattle.ac_bits.specs.Bits.{Appends};
ghost use Rattle.ac_rows.specs.Groups.{strategy_of};
ghost use Rattle.ac_rows.specs.BlockRows.{coupled_each, joined_each, strategy};
ghost use Rattle.ac_rows.specs.Bits.{StrategyFits, strategy_bits};

use ac_bits::BitSink;
use ac_codec::write::{put_bit, put_bits, put_optional, put_optional_bit};
use ac_rows::Block;

/// chincpl of each channel.
#[tactic(auto, using(ac_codec::proofs::Lengths::writing), unfolding(ac_rows::specs::BlockRows::coupled_each, ac_codec::specs::Codec::cons_then, ac_codec::specs::Codec::absent, ac_codec::specs::Codec::given, ac_codec::specs::Codec::tested_bit))]
fn write_coupled(values: &[Option<bool>; 5], sink: &mut BitSink)
    requires room { length sink.old + length ((coupled_each 5 0 false 0 false).spell values.now) ≤ 30720 }
    ensures adds { Appends sink.old sink.new ((coupled_each 5 0 false 0 false).spell values.now) }
    ensures len { length sink.new ≡ length sink.old + length ((coupled_each 5 0 false 0 false).spell values.now) }
{
    let [first, second, third, fourth, fifth] = *values;
    put_optional_bit(sink, first);
    put_optional_bit(sink, second);
    put_optional_bit(sink, third);
    put_optional_bit(sink, fourth);
    put_optional_bit(sink, fifth);
}

/// cplbndstrc of each subband but the first.
#[tactic(auto, unfolding(ac_codec::specs::Codec::given, ac_codec::specs::Codec::tested_bit))]
fn write_joined(values: &[Option<bool>; 18], sink: &mut BitSink)
    requires room { length sink.old + length ((joined_each 0).spell values.now) ≤ 30720 }
    ensures adds { Appends sink.old sink.new ((joined_each 0).spell values.now) }
    ensures len { length sink.new ≡ length sink.old + length ((joined_each 0).spell values.now) }
{
    put_bits(sink, values);
}

/// The fields of the coupling strategy.
#[tactic(auto, using(ac_codec::proofs::Lengths::writing), unfolding(ac_rows::specs::BlockRows::strategy, ac_rows::specs::BlockRows::coupled_each, ac_rows::specs::BlockRows::joined_each, ac_codec::specs::Codec::cons_then, ac_codec::specs::Codec::each, ac_codec::specs::Codec::cons, ac_codec::specs::Codec::absent, ac_codec::specs::Codec::pair, ac_codec::specs::Codec::shaped, ac_codec::specs::Codec::field, ac_codec::specs::Codec::given, ac_codec::specs::Codec::tested_bit))]
pub fn write_strategy(b: &Block, sink: &mut BitSink)
    requires fits { StrategyFits (strategy_of b.now) }
    requires room { length sink.old + length (strategy_bits (strategy_of b.now)) ≤ 30720 }
    ensures adds { Appends sink.old sink.new (strategy_bits (strategy_of b.now)) }
    ensures len { length sink.new ≡ length sink.old + length (strategy_bits (strategy_of b.now)) }
{
    put_bit(sink, b.cplstre);
    put_optional_bit(sink, b.cplinu);
    write_coupled(&b.chincpl, sink);
    put_optional_bit(sink, b.phsflginu);
    put_optional(sink, b.cplbegf, 4);
    put_optional(sink, b.cplendf, 4);
    write_joined(&b.cplbndstrc, sink);
}
