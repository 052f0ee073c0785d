//! Writers of single fields.
ghost use Rattle.std.specs.Prelude.{◌≡◌, ◌+◌, ◌<◌, ◌≤◌, ◌^◌, ◌∷◌, [], length, replicate, true, false};
ghost use Rattle.std.specs.Option.{ForSome};
ghost use Rattle.ac_bits.specs.Bits.{bits, Appends};
ghost use Rattle.ac_codec.specs.Codec.{some_spell, slot_spell};
ghost use Rattle.ac_codec.specs.Lists.{spelled_each};

use crate::read::piece;
use ac_bits::BitSink;

/// A bit.
#[tactic(auto, using(crate::proofs::Lengths::writing))]
pub fn put_bit(sink: &mut BitSink, value: bool)
    requires room { length sink.old + 1 ≤ 30720 }
    ensures adds { Appends sink.old sink.new (value ∷ []) }
    ensures len { length sink.new ≡ length sink.old + 1 }
{
    sink.put(value as u32, 1);
}

/// A field of `width` bits, at most 8, where it is there.
#[tactic(auto, using(crate::proofs::Lengths::writing))]
pub fn put_optional(sink: &mut BitSink, value: Option<u8>, width: u32)
    requires width { width ≤ 8 }
    requires fits { ForSome value (λ v. v < 2 ^ width) }
    requires room { length sink.old + length (some_spell (λ v. bits v width) value) ≤ 30720 }
    ensures adds { Appends sink.old sink.new (some_spell (λ v. bits v width) value) }
    ensures len { length sink.new ≡ length sink.old + length (some_spell (λ v. bits v width) value) }
{
    if let Some(v) = value {
        sink.put(v as u32, width);
    }
}

/// The same of at most 16 bits.
#[tactic(auto, using(crate::proofs::Lengths::writing))]
pub fn put_optional_wide(sink: &mut BitSink, value: Option<u16>, width: u32)
    requires width { width ≤ 16 }
    requires fits { ForSome value (λ v. v < 2 ^ width) }
    requires room { length sink.old + length (some_spell (λ v. bits v width) value) ≤ 30720 }
    ensures adds { Appends sink.old sink.new (some_spell (λ v. bits v width) value) }
    ensures len { length sink.new ≡ length sink.old + length (some_spell (λ v. bits v width) value) }
{
    if let Some(v) = value {
        sink.put(v as u32, width);
    }
}

/// A bit, where it is there.
#[tactic(auto, using(crate::proofs::Lengths::writing))]
pub fn put_optional_bit(sink: &mut BitSink, value: Option<bool>)
    requires room { length sink.old + length (some_spell (λ b. b ∷ []) value) ≤ 30720 }
    ensures adds { Appends sink.old sink.new (some_spell (λ b. b ∷ []) value) }
    ensures len { length sink.new ≡ length sink.old + length (some_spell (λ b. b ∷ []) value) }
{
    if let Some(v) = value {
        put_bit(sink, v);
    }
}

/// A bit, where `there` holds.
#[tactic(auto, using(crate::proofs::Lengths::writing))]
pub fn put_slot_bit(sink: &mut BitSink, there: bool, value: bool)
    requires room { length sink.old + length (slot_spell there (λ b. b ∷ []) value) ≤ 30720 }
    ensures adds { Appends sink.old sink.new (slot_spell there (λ b. b ∷ []) value) }
    ensures len { length sink.new ≡ length sink.old + length (slot_spell there (λ b. b ∷ []) value) }
{
    if there {
        put_bit(sink, value);
    }
}

/// A field of `width` bits, at most 8, where `there` holds.
#[tactic(auto, using(crate::proofs::Lengths::writing))]
pub fn put_slot(sink: &mut BitSink, there: bool, value: u8, width: u32)
    requires width { width ≤ 8 }
    requires fits { there ≡ true → value < 2 ^ width }
    requires room { length sink.old + length (slot_spell there (λ v. bits v width) value) ≤ 30720 }
    ensures adds { Appends sink.old sink.new (slot_spell there (λ v. bits v width) value) }
    ensures len { length sink.new ≡ length sink.old + length (slot_spell there (λ v. bits v width) value) }
{
    if there {
        sink.put(value as u32, width);
    }
}

/// A bit for each entry that is there.
pub fn put_bits(sink: &mut BitSink, values: &[Option<bool>; 18])
    requires room { length sink.old + length (spelled_each (some_spell (λ b. b ∷ [])) values.now) ≤ 30720 }
    ensures adds { Appends sink.old sink.new (spelled_each (some_spell (λ b. b ∷ [])) values.now) }
    ensures len { length sink.new ≡ length sink.old + length (spelled_each (some_spell (λ b. b ∷ [])) values.now) }
{
    for value in values {
        put_optional_bit(sink, *value);
    }
}

/// Free bits, which are written as 0.
pub fn put_zeros(sink: &mut BitSink, count: u32)
    requires room { length sink.old + count ≤ 30720 }
    ensures adds { Appends sink.old sink.new (replicate count false) }
    ensures len { length sink.new ≡ length sink.old + count }
{
    let mut more = count;
    while more > 0 {
        let width = piece(more);
        sink.put(0, width);
        more -= width;
    }
}
