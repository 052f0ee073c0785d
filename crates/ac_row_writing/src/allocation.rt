//! Writing the parameters of the bit allocation.
ghost use Rattle.std.specs.Prelude.{◌≡◌, ◌+◌, ◌≤◌, ◌<◌, ◌^◌, ◌++◌, ℕ, length};
ghost use Rattle.std.specs.Option.{ForSome};
ghost use Rattle.ac_bits.specs.Bits.{bits, Appends};
ghost use Rattle.ac_codec.specs.Codec.{some_spell};
ghost use Rattle.ac_rows.specs.Groups.{allocation_of};
ghost use Rattle.ac_rows.specs.BlockRows.{offset_each, zipped};
ghost use Rattle.ac_codec.specs.Lists.{spelled_each};
ghost use Rattle.ac_rows.specs.Filled.{entry};
ghost use Rattle.ac_rows.specs.Bits.{AllocationIsLawful, allocation_bits, offset_bits};

use ac_bits::BitSink;
use ac_codec::write::{put_bit, put_optional, put_optional_bit};
use ac_rows::Block;

/// The fine offset and the fast gain of a channel.
#[tactic(auto, using(ac_codec::proofs::Lengths::writing))]
fn put_pair(offset: Option<u8>, gain: Option<u8>, sink: &mut BitSink)
    requires offset { ForSome offset (λ v. v < 2 ^ 4) }
    requires gain { ForSome gain (λ v. v < 2 ^ 3) }
    requires room { length sink.old + length (some_spell (λ v. bits v 4) offset ++ some_spell (λ v. bits v 3) gain) ≤ 30720 }
    ensures adds { Appends sink.old sink.new (some_spell (λ v. bits v 4) offset ++ some_spell (λ v. bits v 3) gain) }
    ensures len { length sink.new ≡ length sink.old + length (some_spell (λ v. bits v 4) offset ++ some_spell (λ v. bits v 3) gain) }
{
    put_optional(sink, offset, 4);
    put_optional(sink, gain, 3);
}

/// The fine offset and the fast gain of each full channel.
fn write_each(offsets: &[Option<u8>; 5], gains: &[Option<u8>; 5], sink: &mut BitSink)
    requires offsets { (i : ℕ) → i < 5 → ForSome (entry offsets.now i) (λ v. v < 2 ^ 4) }
    requires gains { (i : ℕ) → i < 5 → ForSome (entry gains.now i) (λ v. v < 2 ^ 3) }
    requires room { length sink.old + length (spelled_each offset_bits (zipped offsets.now gains.now)) ≤ 30720 }
    ensures adds { Appends sink.old sink.new (spelled_each offset_bits (zipped offsets.now gains.now)) }
    ensures len { length sink.new ≡ length sink.old + length (spelled_each offset_bits (zipped offsets.now gains.now)) }
{
    for i in 0..5 {
        put_pair(offsets[i], gains[i], sink);
    }
}

/// The same, by its rows.
fn write_offsets(offsets: &[Option<u8>; 5], gains: &[Option<u8>; 5], sink: &mut BitSink)
    requires offsets { (i : ℕ) → i < 5 → ForSome (entry offsets.now i) (λ v. v < 2 ^ 4) }
    requires gains { (i : ℕ) → i < 5 → ForSome (entry gains.now i) (λ v. v < 2 ^ 3) }
    requires room { length sink.old + length ((offset_each 0).spell (offsets.now, gains.now)) ≤ 30720 }
    ensures adds { Appends sink.old sink.new ((offset_each 0).spell (offsets.now, gains.now)) }
    ensures len { length sink.new ≡ length sink.old + length ((offset_each 0).spell (offsets.now, gains.now)) }
{
    write_each(offsets, gains, sink);
}

/// The parameters of the bit allocation.
#[tactic(auto, using(ac_codec::proofs::Lengths::writing), unfolding(ac_rows::specs::BlockRows::allocation, ac_rows::specs::BlockRows::parameters, ac_rows::specs::BlockRows::offsets, ac_rows::specs::BlockRows::leaks, ac_rows::specs::BlockRows::offset_each, ac_rows::specs::BlockRows::alternating, ac_codec::specs::Codec::fitted, ac_codec::specs::Codec::pair, ac_codec::specs::Codec::each, ac_codec::specs::Codec::cons, ac_codec::specs::Codec::absent, ac_codec::specs::Codec::shaped, ac_codec::specs::Codec::field, ac_codec::specs::Codec::given, ac_codec::specs::Codec::tested_bit))]
pub fn write_allocation(b: &Block, sink: &mut BitSink)
    requires lawful { AllocationIsLawful (allocation_of b.now) }
    requires room { length sink.old + length (allocation_bits (allocation_of b.now)) ≤ 30720 }
    ensures adds { Appends sink.old sink.new (allocation_bits (allocation_of b.now)) }
    ensures len { length sink.new ≡ length sink.old + length (allocation_bits (allocation_of b.now)) }
{
    put_bit(sink, b.baie);
    put_optional(sink, b.sdcycod, 2);
    put_optional(sink, b.fdcycod, 2);
    put_optional(sink, b.sgaincod, 2);
    put_optional(sink, b.dbpbcod, 2);
    put_optional(sink, b.floorcod, 3);
    put_bit(sink, b.snroffste);
    put_optional(sink, b.csnroffst, 6);
    put_optional(sink, b.cplfsnroffst, 4);
    put_optional(sink, b.cplfgaincod, 3);
    write_offsets(&b.fsnroffst, &b.fgaincod, sink);
    put_optional(sink, b.lfefsnroffst, 4);
    put_optional(sink, b.lfefgaincod, 3);
    put_optional_bit(sink, b.cplleake);
    put_optional(sink, b.cplfleak, 3);
    put_optional(sink, b.cplsleak, 3);
}
