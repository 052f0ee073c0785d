//! The mantissas of a block as bits (A/52 7.3.5).
ghost use Rattle.std.specs.Prelude.{◌≡◌, ◌<◌, ◌≤◌, ◌+◌, ◌-◌, ◌*◌, ◌==◌, [], ◌∷◌, ◌++◌, length, drop, slice_index};
ghost use Rattle.ac_mant.specs.Quantiser.{code_limit};
ghost use Rattle.ac_base.specs.Counts.{tally_of, exact_of};
ghost use Rattle.ac_bits.specs.Bits.{frame_bits, Appends};
ghost use Rattle.ac_mant.specs.Groups.{pointers, closed, after, spelled, IsCoded, AreCoded, coming, zeros, triple, pair, first_number, number};

use crate::ahead::{Ahead, none, then, width_at};
use crate::coded::Coded;
use crate::pen::Pen;
use ac_bits::BitSink;

/// The first code of this pointer among the mantissas, or 0 where there is none.
fn one_of(rest: &[Coded], bap: u8) -> u16
    ensures { result ≡ slice_index (coming bap rest.now ++ 0 ∷ []) 0 }
{
    for x in rest {
        if x.bap == bap {
            return x.code;
        }
    }
    0
}

/// The first two codes of this pointer among the mantissas, with 0 for each that isn't there.
fn two_of(rest: &[Coded], bap: u8) -> (u16, u16)
    ensures first { result.0 ≡ slice_index (coming bap rest.now ++ 0 ∷ 0 ∷ []) 0 }
    ensures second { result.1 ≡ slice_index (coming bap rest.now ++ 0 ∷ 0 ∷ []) 1 }
{
    let mut first = None;
    for x in rest {
        if x.bap == bap {
            match first {
                None => first = Some(x.code),
                Some(code) => return (code, x.code),
            }
        }
    }
    (first.unwrap_or(0), 0)
}

/// The number of three codes of so many levels.
#[inline]
fn triple_of(levels: u16, code: u16, behind: (u16, u16)) -> u16
    requires levels { levels ≤ 5 }
    requires code { code < levels }
    requires first { behind.0 < levels }
    requires second { behind.1 < levels }
    ensures value { result ≡ levels * levels * code + levels * behind.0 + behind.1 }
    ensures bound { result < levels * levels * levels }
{
    levels * levels * code + levels * behind.0 + behind.1
}

/// The number of two codes of 11 levels.
#[inline]
fn pair_of(code: u16, behind: u16) -> u16
    requires code { code < 11 }
    requires behind { behind < 11 }
    ensures value { result ≡ 11 * code + behind }
    ensures bound { result < 121 }
{
    11 * code + behind
}

/// The number that stands at a mantissa of a group of three, or 0 where it was sent ahead.
#[inline]
fn triple_at(levels: u16, left: u8, x: Coded, rest: &[Coded]) -> u16
    requires levels { levels ≤ 5 }
    requires pointer { code_limit x.bap ≡ levels }
    requires code { x.code < levels }
    requires others { AreCoded rest.now }
    ensures { result ≡ first_number left (triple levels x.code (coming x.bap rest.now ++ 0 ∷ 0 ∷ [])) }
{
    if left > 0 {
        return 0;
    }
    triple_of(levels, x.code, two_of(rest, x.bap))
}

/// The number that stands at a mantissa of a group of two, or 0 where it was sent ahead.
#[inline]
fn pair_at(left: u8, x: Coded, rest: &[Coded]) -> u16
    requires pointer { code_limit x.bap ≡ 11 }
    requires code { x.code < 11 }
    requires others { AreCoded rest.now }
    ensures { result ≡ first_number left (pair 11 x.code (coming x.bap rest.now ++ 0 ∷ [])) }
{
    if left > 0 {
        return 0;
    }
    pair_of(x.code, one_of(rest, x.bap))
}

/// The number that stands at a mantissa.
#[inline]
#[tactic(auto, using(crate::proofs::Coming::limit_of_1, crate::proofs::Coming::limit_of_2, crate::proofs::Coming::limit_of_4))]
fn number_of(ahead: Ahead, x: Coded, rest: &[Coded]) -> u16
    requires coded { IsCoded x }
    requires others { AreCoded rest.now }
    ensures { result ≡ number zeros ahead x rest.now }
{
    match x.bap {
        1 => triple_at(3, ahead.one, x, rest),
        2 => triple_at(5, ahead.two, x, rest),
        4 => pair_at(ahead.four, x, rest),
        _ => x.code,
    }
}

/// Writes the number that stands at a mantissa, with others behind it, and says what was sent ahead then.
#[inline]
fn pack_code(x: Coded, rest: &[Coded], ahead: Ahead, pen: &mut Pen, sink: &mut BitSink) -> Ahead
    requires coded { IsCoded x }
    requires others { AreCoded rest.now }
    requires room { length sink.old + length pen.old ≤ frame_bits }
    ensures ahead { result ≡ after ahead x.bap }
    ensures bits { (sink.new ++ pen.new) ++ spelled zeros result rest.now ≡ (sink.old ++ pen.old) ++ spelled zeros ahead (x ∷ rest.now) }
{
    let number = number_of(ahead, x, rest);
    pen.write(u32::from(number), u32::from(width_at(ahead, x.bap)), sink);
    then(ahead, x.bap)
}

/// The mantissas behind place `i`.
#[inline]
fn behind(list: &[Coded], i: usize) -> &[Coded]
    requires { i < length list.now }
    ensures { result.now ≡ drop (i + 1) list.now }
{
    &list[i + 1..]
}

/// Appends the bits of a block's mantissas, in the order of the list: each number stands at the first of its codes, groups
/// run over the whole list, and the codes that a last group lacks are 0 (A/52 7.3.5).
///
/// Each code is one of its pointer, and the sink has room for what the block costs.
pub fn pack_block(list: &[Coded], sink: &mut BitSink)
    requires coded { AreCoded list.now }
    requires room { length sink.old + exact_of (tally_of (pointers list.now)) ≤ frame_bits }
    ensures bits { Appends sink.old sink.new (spelled zeros closed list.now) }
    ensures len { length sink.new ≡ length sink.old + exact_of (tally_of (pointers list.now)) }
{
    let mut ahead = none();
    let mut pen = Pen::new();
    for i in 0..list.len() {
        ahead = pack_code(list[i], behind(list, i), ahead, &mut pen, sink);
    }
    pen.close(sink);
}
