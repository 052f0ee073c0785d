//! Writing rematrixing, exponent strategies and bandwidths.
ghost use Rattle.std.specs.Prelude.{◌≡◌, ◌+◌, ◌≤◌, ◌<◌, ◌^◌, ℕ, [], length, slice_index};
ghost use Rattle.std.specs.Option.{ForSome};
ghost use Rattle.ac_bits.specs.Bits.{Appends};
ghost use Rattle.ac_rows.specs.Filled.{entry};
ghost use Rattle.ac_rows.specs.Groups.{codes_of};
ghost use Rattle.ac_rows.specs.BlockRows.{rematrix_each, strategy_each, width_each};
ghost use Rattle.ac_rows.specs.Bits.{CodesAreLawful, codes_bits, nothing, uncoupled};

use ac_bits::BitSink;
use ac_codec::write::{put_optional, put_optional_bit, put_slot};
use ac_rows::Block;

/// The flag of each rematrix band.
#[tactic(auto, using(ac_codec::proofs::Lengths::writing), unfolding(ac_rows::specs::BlockRows::rematrix_each, ac_codec::specs::Codec::each, ac_codec::specs::Codec::cons, ac_codec::specs::Codec::absent, ac_codec::specs::Codec::given, ac_codec::specs::Codec::tested_bit))]
fn write_rematrix(values: &[Option<bool>; 4], sink: &mut BitSink)
    requires room { length sink.old + length ((rematrix_each 0).spell values.now) ≤ 30720 }
    ensures adds { Appends sink.old sink.new ((rematrix_each 0).spell values.now) }
    ensures len { length sink.new ≡ length sink.old + length ((rematrix_each 0).spell values.now) }
{
    let [first, second, third, fourth] = *values;
    put_optional_bit(sink, first);
    put_optional_bit(sink, second);
    put_optional_bit(sink, third);
    put_optional_bit(sink, fourth);
}

/// The exponent strategy of each full channel.
#[tactic(auto, using(ac_codec::proofs::Lengths::writing), unfolding(ac_rows::specs::BlockRows::strategy_each, ac_codec::specs::Codec::each, ac_codec::specs::Codec::cons, ac_codec::specs::Codec::absent, ac_codec::specs::Codec::slot, ac_codec::specs::Codec::field))]
fn write_each(values: &[u8; 5], full: u8, sink: &mut BitSink)
    requires fits { (i : ℕ) → i < 5 → slice_index values.now i ≤ 3 }
    requires room { length sink.old + length ((strategy_each full nothing uncoupled).spell values.now) ≤ 30720 }
    ensures adds { Appends sink.old sink.new ((strategy_each full nothing uncoupled).spell values.now) }
    ensures len { length sink.new ≡ length sink.old + length ((strategy_each full nothing uncoupled).spell values.now) }
{
    let [first, second, third, fourth, fifth] = *values;
    put_slot(sink, 0 < full, first, 2);
    put_slot(sink, 1 < full, second, 2);
    put_slot(sink, 2 < full, third, 2);
    put_slot(sink, 3 < full, fourth, 2);
    put_slot(sink, 4 < full, fifth, 2);
}

/// The bandwidths of the uncoupled channels with new exponents.
#[tactic(auto, using(ac_codec::proofs::Lengths::writing), unfolding(ac_rows::specs::BlockRows::width_each, ac_codec::specs::Codec::each, ac_codec::specs::Codec::cons, ac_codec::specs::Codec::absent, ac_codec::specs::Codec::given, ac_codec::specs::Codec::field))]
fn write_widths(values: &[Option<u8>; 5], sink: &mut BitSink)
    requires fits { (i : ℕ) → i < 5 → ForSome (entry values.now i) (λ v. v < 2 ^ 6) }
    requires room { length sink.old + length ((width_each 0 uncoupled []).spell values.now) ≤ 30720 }
    ensures adds { Appends sink.old sink.new ((width_each 0 uncoupled []).spell values.now) }
    ensures len { length sink.new ≡ length sink.old + length ((width_each 0 uncoupled []).spell values.now) }
{
    let [first, second, third, fourth, fifth] = *values;
    put_optional(sink, first, 6);
    put_optional(sink, second, 6);
    put_optional(sink, third, 6);
    put_optional(sink, fourth, 6);
    put_optional(sink, fifth, 6);
}

/// Rematrixing, exponent strategies and bandwidths.
#[tactic(auto, using(ac_codec::proofs::Lengths::writing), unfolding(ac_rows::specs::BlockRows::codes, ac_rows::specs::BlockRows::rematrix_each, ac_rows::specs::BlockRows::strategy_each, ac_rows::specs::BlockRows::width_each, ac_codec::specs::Codec::each, ac_codec::specs::Codec::cons, ac_codec::specs::Codec::absent, ac_codec::specs::Codec::slot, ac_codec::specs::Codec::pair, ac_codec::specs::Codec::shaped, ac_codec::specs::Codec::field, ac_codec::specs::Codec::given, ac_codec::specs::Codec::tested_bit))]
pub fn write_codes(b: &Block, full: u8, sink: &mut BitSink)
    requires lawful { CodesAreLawful full (codes_of b.now) }
    requires room { length sink.old + length (codes_bits full (codes_of b.now)) ≤ 30720 }
    ensures adds { Appends sink.old sink.new (codes_bits full (codes_of b.now)) }
    ensures len { length sink.new ≡ length sink.old + length (codes_bits full (codes_of b.now)) }
{
    put_optional_bit(sink, b.rematstr);
    write_rematrix(&b.rematflg, sink);
    put_optional(sink, b.cplexpstr, 2);
    write_each(&b.chexpstr, full, sink);
    put_optional_bit(sink, b.lfeexpstr);
    write_widths(&b.chbwcod, sink);
}
