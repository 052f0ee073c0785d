//! Writing coupling coordinates and phase flags.
ghost use Rattle.std.specs.Prelude.{◌≡◌, ◌+◌, ◌≤◌, ◌<◌, ◌^◌, ℕ, [], length, slice_index_or};
ghost use Rattle.std.specs.Option.{ForSome};
ghost use Rattle.ac_bits.specs.Bits.{Appends};
ghost use Rattle.ac_codec.specs.Lists.{spelled_each};
ghost use Rattle.ac_rows.specs.Filled.{entry};
ghost use Rattle.ac_rows.specs.Groups.{shared_of};
ghost use Rattle.ac_rows.specs.BlockRows.{zipped, coordinate_each, joined_channels, phase_each};
ghost use Rattle.ac_rows.specs.Bits.{coordinate_bits, channel_bits, shared_bits, SharedIsLawful};

use ac_bits::BitSink;
use ac_codec::write::{put_bits, put_optional, put_optional_bit};
use ac_rows::Block;

/// The two coordinates of a band.
#[tactic(auto, using(ac_codec::proofs::Lengths::writing))]
fn put_pair(exp: Option<u8>, mant: Option<u8>, sink: &mut BitSink)
    requires exp { ForSome exp (λ v. v < 2 ^ 4) }
    requires mant { ForSome mant (λ v. v < 2 ^ 4) }
    requires room { length sink.old + length (coordinate_bits (exp, mant)) ≤ 30720 }
    ensures adds { Appends sink.old sink.new (coordinate_bits (exp, mant)) }
    ensures len { length sink.new ≡ length sink.old + length (coordinate_bits (exp, mant)) }
{
    put_optional(sink, exp, 4);
    put_optional(sink, mant, 4);
}

/// Those of each band.
fn write_each(exps: &[Option<u8>; 18], mants: &[Option<u8>; 18], sink: &mut BitSink)
    requires exps { (k : ℕ) → k < 18 → ForSome (entry exps.now k) (λ v. v < 2 ^ 4) }
    requires mants { (k : ℕ) → k < 18 → ForSome (entry mants.now k) (λ v. v < 2 ^ 4) }
    requires room { length sink.old + length (spelled_each coordinate_bits (zipped exps.now mants.now)) ≤ 30720 }
    ensures adds { Appends sink.old sink.new (spelled_each coordinate_bits (zipped exps.now mants.now)) }
    ensures len { length sink.new ≡ length sink.old + length (spelled_each coordinate_bits (zipped exps.now mants.now)) }
{
    for k in 0..18 {
        put_pair(exps[k], mants[k], sink);
    }
}

/// The same, by their rows.
fn write_coordinates(exps: &[Option<u8>; 18], mants: &[Option<u8>; 18], sink: &mut BitSink)
    requires exps { (k : ℕ) → k < 18 → ForSome (entry exps.now k) (λ v. v < 2 ^ 4) }
    requires mants { (k : ℕ) → k < 18 → ForSome (entry mants.now k) (λ v. v < 2 ^ 4) }
    requires room { length sink.old + length ((coordinate_each 0).spell (exps.now, mants.now)) ≤ 30720 }
    ensures adds { Appends sink.old sink.new ((coordinate_each 0).spell (exps.now, mants.now)) }
    ensures len { length sink.new ≡ length sink.old + length ((coordinate_each 0).spell (exps.now, mants.now)) }
{
    write_each(exps, mants, sink);
}

/// The coordinates of a channel.
#[tactic(auto, using(ac_codec::proofs::Lengths::writing), unfolding(ac_rows::specs::BlockRows::channel_shared, ac_rows::specs::BlockRows::coordinate_each, ac_rows::specs::BlockRows::alternating, ac_codec::specs::Codec::fitted, ac_codec::specs::Codec::each, ac_codec::specs::Codec::cons, ac_codec::specs::Codec::absent, ac_codec::specs::Codec::pair, ac_codec::specs::Codec::shaped, ac_codec::specs::Codec::field, ac_codec::specs::Codec::given, ac_codec::specs::Codec::tested_bit))]
fn write_channel(
    cplcoe: Option<bool>,
    mstrcplco: Option<u8>,
    exps: &[Option<u8>; 18],
    mants: &[Option<u8>; 18],
    sink: &mut BitSink,
)
    requires master { ForSome mstrcplco (λ v. v < 2 ^ 2) }
    requires exps { (k : ℕ) → k < 18 → ForSome (entry exps.now k) (λ v. v < 2 ^ 4) }
    requires mants { (k : ℕ) → k < 18 → ForSome (entry mants.now k) (λ v. v < 2 ^ 4) }
    requires room { length sink.old + length (channel_bits (record {
      cplcoe = cplcoe;
      mstrcplco = mstrcplco;
      cplcoexp = exps.now;
      cplcomant = mants.now;
    })) ≤ 30720 }
    ensures adds { Appends sink.old sink.new (channel_bits (record {
      cplcoe = cplcoe;
      mstrcplco = mstrcplco;
      cplcoexp = exps.now;
      cplcomant = mants.now;
    })) }
    ensures len { length sink.new ≡ length sink.old + length (channel_bits (record {
      cplcoe = cplcoe;
      mstrcplco = mstrcplco;
      cplcoexp = exps.now;
      cplcomant = mants.now;
    })) }
{
    put_optional_bit(sink, cplcoe);
    put_optional(sink, mstrcplco, 2);
    write_coordinates(exps, mants, sink);
}

/// The coordinates of each channel.
fn write_channels(
    coes: &[Option<bool>; 5],
    masters: &[Option<u8>; 5],
    exps: &[[Option<u8>; 18]; 5],
    mants: &[[Option<u8>; 18]; 5],
    sink: &mut BitSink,
)
    requires masters { (i : ℕ) → i < 5 → ForSome (entry masters.now i) (λ v. v < 2 ^ 2) }
    requires exps { (i : ℕ) → i < 5 → (k : ℕ) → k < 18 → ForSome (entry (slice_index_or exps.now i []) k) (λ v. v < 2 ^ 4) }
    requires mants { (i : ℕ) → i < 5 → (k : ℕ) → k < 18 → ForSome (entry (slice_index_or mants.now i []) k) (λ v. v < 2 ^ 4) }
    requires room { length sink.old + length (spelled_each channel_bits (joined_channels coes.now masters.now exps.now mants.now)) ≤ 30720 }
    ensures adds { Appends sink.old sink.new (spelled_each channel_bits (joined_channels coes.now masters.now exps.now mants.now)) }
    ensures len { length sink.new ≡ length sink.old + length (spelled_each channel_bits
        (joined_channels coes.now masters.now exps.now mants.now)) }
{
    for i in 0..5 {
        write_channel(coes[i], masters[i], &exps[i], &mants[i], sink);
    }
}

/// The phase flag of each band.
fn write_phases(values: &[Option<bool>; 18], sink: &mut BitSink)
    requires room { length sink.old + length ((phase_each 0).spell values.now) ≤ 30720 }
    ensures adds { Appends sink.old sink.new ((phase_each 0).spell values.now) }
    ensures len { length sink.new ≡ length sink.old + length ((phase_each 0).spell values.now) }
{
    put_bits(sink, values);
}

/// The coordinates of all channels, and the phase flags.
pub fn write_shared(b: &Block, sink: &mut BitSink)
    requires lawful { SharedIsLawful (shared_of b.now) }
    requires room { length sink.old + length (shared_bits (shared_of b.now)) ≤ 30720 }
    ensures adds { Appends sink.old sink.new (shared_bits (shared_of b.now)) }
    ensures len { length sink.new ≡ length sink.old + length (shared_bits (shared_of b.now)) }
{
    write_channels(&b.cplcoe, &b.mstrcplco, &b.cplcoexp, &b.cplcomant, sink);
    write_phases(&b.phsflg, sink);
}
