//! Writing the exponents of one channel, as a field.
ghost use Rattle.std.specs.Prelude.{◌≡◌, ◌+◌, ◌<◌, ◌≤◌, ◌^◌, length};
ghost use Rattle.std.specs.List.{All};
ghost use Rattle.ac_bits.specs.Bits.{bits, Appends};
ghost use Rattle.ac_codec.specs.Lists.{spelled_each};
ghost use Rattle.ac_rows.specs.Spelled.{spelling_bits};

use ac_bits::BitSink;
use ac_expo::Spelled;

/// Groups of 7 bits.
fn put_groups(sink: &mut BitSink, groups: &[u8])
    requires fits { All (λ g. g < 2 ^ 7) groups.now }
    requires room { length sink.old + length (spelled_each (λ g. bits g 7) groups.now) ≤ 30720 }
    ensures adds { Appends sink.old sink.new (spelled_each (λ g. bits g 7) groups.now) }
    ensures len { length sink.new ≡ length sink.old + length (spelled_each (λ g. bits g 7) groups.now) }
{
    for group in groups {
        sink.put(u32::from(*group), 7);
    }
}

/// A first exponent and its groups.
#[tactic(auto, using(ac_codec::proofs::Lengths::writing))]
pub fn put_spelled(sink: &mut BitSink, spelled: &Spelled)
    requires first { spelled.now.first < 2 ^ 4 }
    requires groups { All (λ g. g < 2 ^ 7) spelled.now.groups }
    requires room { length sink.old + length (spelling_bits spelled.now) ≤ 30720 }
    ensures adds { Appends sink.old sink.new (spelling_bits spelled.now) }
    ensures len { length sink.new ≡ length sink.old + length (spelling_bits spelled.now) }
{
    sink.put(u32::from(spelled.first()), 4);
    put_groups(sink, spelled.groups());
}
