//! Writing the exponents of all channels.
ghost use Rattle.std.specs.Prelude.{◌≡◌, ◌+◌, ◌≤◌, ◌<◌, ◌^◌, ℕ, length};
ghost use Rattle.std.specs.Option.{ForSome};
ghost use Rattle.ac_bits.specs.Bits.{Appends};
ghost use Rattle.ac_codec.specs.Codec.{some_spell};
ghost use Rattle.ac_codec.specs.Lists.{spelled_each};
ghost use Rattle.ac_rows.specs.Filled.{entry};
ghost use Rattle.ac_rows.specs.Groups.{exponents_of};
ghost use Rattle.ac_rows.specs.Spelled.{spelling_bits};
ghost use Rattle.ac_rows.specs.BlockRows.{zipped};
ghost use Rattle.ac_rows.specs.Bits.{SpellingFits, ExponentsFit, exponent_bits, exponents_bits};

use crate::exponent::put_spelled;
use ac_bits::BitSink;
use ac_codec::write::put_optional;
use ac_expo::Spelled;
use ac_rows::Block;

/// A channel's exponents, where they are sent.
fn put_new(spelled: &Option<Spelled>, sink: &mut BitSink)
    requires fits { ForSome spelled.now SpellingFits }
    requires room { length sink.old + length (some_spell spelling_bits spelled.now) ≤ 30720 }
    ensures adds { Appends sink.old sink.new (some_spell spelling_bits spelled.now) }
    ensures len { length sink.new ≡ length sink.old + length (some_spell spelling_bits spelled.now) }
{
    if let Some(spelled) = spelled {
        put_spelled(sink, spelled);
    }
}

/// A channel's exponents and gainrng.
#[tactic(auto, using(ac_codec::proofs::Lengths::writing))]
fn put_channel(spelled: &Option<Spelled>, gainrng: Option<u8>, sink: &mut BitSink)
    requires fits { ForSome spelled.now SpellingFits }
    requires gain { ForSome gainrng (λ v. v < 2 ^ 2) }
    requires room { length sink.old + length (exponent_bits (spelled.now, gainrng)) ≤ 30720 }
    ensures adds { Appends sink.old sink.new (exponent_bits (spelled.now, gainrng)) }
    ensures len { length sink.new ≡ length sink.old + length (exponent_bits (spelled.now, gainrng)) }
{
    put_new(spelled, sink);
    put_optional(sink, gainrng, 2);
}

/// Those of each full channel.
fn write_each(exps: &[Option<Spelled>; 5], gains: &[Option<u8>; 5], sink: &mut BitSink)
    requires fits { (i : ℕ) → i < 5 → ForSome (entry exps.now i) SpellingFits }
    requires gains { (i : ℕ) → i < 5 → ForSome (entry gains.now i) (λ v. v < 2 ^ 2) }
    requires room { length sink.old + length (spelled_each exponent_bits (zipped exps.now gains.now)) ≤ 30720 }
    ensures adds { Appends sink.old sink.new (spelled_each exponent_bits (zipped exps.now gains.now)) }
    ensures len { length sink.new ≡ length sink.old + length (spelled_each exponent_bits (zipped exps.now gains.now)) }
{
    for i in 0..5 {
        put_channel(&exps[i], gains[i], sink);
    }
}

/// The exponents of all channels that send them.
#[tactic(auto, using(ac_codec::proofs::Lengths::writing))]
pub fn write_exponents(b: &Block, sink: &mut BitSink)
    requires fits { ExponentsFit (exponents_of b.now) }
    requires room { length sink.old + length (exponents_bits (exponents_of b.now)) ≤ 30720 }
    ensures adds { Appends sink.old sink.new (exponents_bits (exponents_of b.now)) }
    ensures len { length sink.new ≡ length sink.old + length (exponents_bits (exponents_of b.now)) }
{
    put_new(&b.cplabsexp, sink);
    write_each(&b.exps, &b.gainrng, sink);
    put_new(&b.lfeexps, sink);
}
