//! Readers of single fields. After a refusal the source stands where the field began.
ghost use Rattle.std.specs.Prelude.{◌≡◌, ◌<◌, ◌≤◌, ◌^◌, ◌&&◌, length, drop, nat_lt, nat_le, true, false, IfOk};
ghost use Rattle.ac_codec.specs.Codec.{Codec, Gives, GivesPart, free, field, any, below, reused, flag, tested_bit, one_where, zero_where};
ghost use Rattle.ac_codec.specs.Codec.{given, slot, each};

use crate::refused::{Refused, Row};
use ac_bits::BitSource;

/// A field of `width` bits in which no value is refused.
pub fn number(source: &mut BitSource, width: u32) -> Result<u32, Refused>
    requires { width ≤ 32 }
    ensures told { Gives result source.new ((field width any).read source.old) }
    ensures bound { IfOk result (λ v. v < 2 ^ width) }
{
    match source.take(width) {
        Ok(v) => Ok(v),
        Err(_) => Err(Refused::OutOfBits),
    }
}

/// The same of at most 8 bits.
pub fn small(source: &mut BitSource, width: u32) -> Result<u8, Refused>
    requires { width ≤ 8 }
    ensures { Gives result source.new ((field width any).read source.old) }
{
    let v = number(source, width)?;
    Ok(v as u8)
}

/// The same of at most 16 bits.
pub fn wide(source: &mut BitSource, width: u32) -> Result<u16, Refused>
    requires { width ≤ 16 }
    ensures { Gives result source.new ((field width any).read source.old) }
{
    let v = number(source, width)?;
    Ok(v as u16)
}

/// A field whose values from `limit` on are reserved.
pub fn limited(source: &mut BitSource, width: u32, limit: u32, row: Row) -> Result<u8, Refused>
    requires { width ≤ 8 }
    ensures { Gives result source.new ((field width (below limit row)).read source.old) }
{
    let before = source.copy();
    match source.take(width) {
        Ok(v) if v < limit => Ok(v as u8),
        Ok(_) => {
            *source = before;
            Err(Refused::Reserved(row))
        }
        Err(_) => Err(Refused::OutOfBits),
    }
}

/// A field whose value 0 is refused.
fn some(source: &mut BitSource, width: u32, row: Row) -> Result<u8, Refused>
    requires { width ≤ 8 }
    ensures { Gives result source.new ((field width (reused false row)).read source.old) }
{
    let before = source.copy();
    match source.take(width) {
        Ok(0) => {
            *source = before;
            Err(Refused::NoReuse(row))
        }
        Ok(v) => Ok(v as u8),
        Err(_) => Err(Refused::OutOfBits),
    }
}

/// A field whose value 0 asks for reuse, which is refused unless `may` holds.
pub fn reusing(source: &mut BitSource, width: u32, may: bool, row: Row) -> Result<u8, Refused>
    requires { width ≤ 8 }
    ensures { Gives result source.new ((field width (reused may row)).read source.old) }
{
    if may {
        small(source, width)
    } else {
        some(source, width, row)
    }
}

/// A bit.
pub fn bit(source: &mut BitSource) -> Result<bool, Refused>
    ensures { Gives result source.new (flag.read source.old) }
{
    match source.take(1) {
        Ok(v) => Ok(v == 1),
        Err(_) => Err(Refused::OutOfBits),
    }
}

/// A bit that has to be 0.
fn clear(source: &mut BitSource, refused: Refused) -> Result<bool, Refused>
    ensures { Gives result source.new ((tested_bit (one_where false refused)).read source.old) }
{
    let before = source.copy();
    match source.take(1) {
        Ok(0) => Ok(false),
        Ok(_) => {
            *source = before;
            Err(refused)
        }
        Err(_) => Err(Refused::OutOfBits),
    }
}

/// A bit that has to be 1.
fn set(source: &mut BitSource, refused: Refused) -> Result<bool, Refused>
    ensures { Gives result source.new ((tested_bit (zero_where false refused)).read source.old) }
{
    let before = source.copy();
    match source.take(1) {
        Ok(0) => {
            *source = before;
            Err(refused)
        }
        Ok(_) => Ok(true),
        Err(_) => Err(Refused::OutOfBits),
    }
}

/// A bit that is 1 only where `may` holds.
pub fn bit_one_where(source: &mut BitSource, may: bool, refused: Refused) -> Result<bool, Refused>
    ensures { Gives result source.new ((tested_bit (one_where may refused)).read source.old) }
{
    if may {
        bit(source)
    } else {
        clear(source, refused)
    }
}

/// A bit that is 0 only where `may` holds.
pub fn bit_zero_where(source: &mut BitSource, may: bool, refused: Refused) -> Result<bool, Refused>
    ensures { Gives result source.new ((tested_bit (zero_where may refused)).read source.old) }
{
    if may {
        bit(source)
    } else {
        set(source, refused)
    }
}

/// A field of at most 8 bits that is there where `there` holds.
#[tactic(auto, unfolding(crate::specs::Codec::given))]
pub fn optional(source: &mut BitSource, there: bool, width: u32) -> Result<Option<u8>, Refused>
    requires { width ≤ 8 }
    ensures { Gives result source.new ((given there (field width any)).read source.old) }
{
    if there {
        Ok(Some(small(source, width)?))
    } else {
        Ok(None)
    }
}

/// A field of at most 16 bits that is there where `there` holds.
#[tactic(auto, unfolding(crate::specs::Codec::given))]
pub fn optional_wide(
    source: &mut BitSource,
    there: bool,
    width: u32,
) -> Result<Option<u16>, Refused>
    requires { width ≤ 16 }
    ensures { Gives result source.new ((given there (field width any)).read source.old) }
{
    if there {
        Ok(Some(wide(source, width)?))
    } else {
        Ok(None)
    }
}

/// A field with reserved values that is there where `there` holds.
#[tactic(auto, unfolding(crate::specs::Codec::given))]
pub fn optional_limited(
    source: &mut BitSource,
    there: bool,
    width: u32,
    limit: u32,
    row: Row,
) -> Result<Option<u8>, Refused>
    requires { width ≤ 8 }
    ensures { Gives result source.new ((given there (field width (below limit row))).read source.old) }
{
    if there {
        Ok(Some(limited(source, width, limit, row)?))
    } else {
        Ok(None)
    }
}

/// A field that asks for reuse by 0, and is there where `there` holds.
#[tactic(auto, unfolding(crate::specs::Codec::given))]
pub fn optional_reusing(
    source: &mut BitSource,
    there: bool,
    width: u32,
    may: bool,
    row: Row,
) -> Result<Option<u8>, Refused>
    requires { width ≤ 8 }
    ensures { Gives result source.new ((given there (field width (reused may row))).read source.old) }
{
    if there {
        Ok(Some(reusing(source, width, may, row)?))
    } else {
        Ok(None)
    }
}

/// A bit that is there where `there` holds.
#[tactic(auto, unfolding(crate::specs::Codec::given))]
pub fn optional_bit(source: &mut BitSource, there: bool) -> Result<Option<bool>, Refused>
    ensures { Gives result source.new ((given there flag).read source.old) }
{
    if there {
        Ok(Some(bit(source)?))
    } else {
        Ok(None)
    }
}

/// A bit that is there where `there` holds, and 1 only where `may` holds.
#[tactic(auto, unfolding(crate::specs::Codec::given))]
pub fn optional_one_where(
    source: &mut BitSource,
    there: bool,
    may: bool,
    refused: Refused,
) -> Result<Option<bool>, Refused>
    ensures { Gives result source.new ((given there (tested_bit (one_where may refused))).read source.old) }
{
    if there {
        Ok(Some(bit_one_where(source, may, refused)?))
    } else {
        Ok(None)
    }
}

/// A bit that is there where `there` holds, and 0 only where `may` holds.
#[tactic(auto, unfolding(crate::specs::Codec::given))]
pub fn optional_zero_where(
    source: &mut BitSource,
    there: bool,
    may: bool,
    refused: Refused,
) -> Result<Option<bool>, Refused>
    ensures { Gives result source.new ((given there (tested_bit (zero_where may refused))).read source.old) }
{
    if there {
        Ok(Some(bit_zero_where(source, may, refused)?))
    } else {
        Ok(None)
    }
}

/// A bit that is there where `there` holds and 1 only where `may` holds; elsewhere false.
#[tactic(auto, unfolding(crate::specs::Codec::slot))]
pub fn slot_one_where(
    source: &mut BitSource,
    there: bool,
    may: bool,
    refused: Refused,
) -> Result<bool, Refused>
    ensures { Gives result source.new ((slot there false (tested_bit (one_where may refused))).read source.old) }
{
    if there {
        bit_one_where(source, may, refused)
    } else {
        Ok(false)
    }
}

/// A field that asks for reuse by 0 and is there where `there` holds; elsewhere 0.
#[tactic(auto, unfolding(crate::specs::Codec::slot))]
pub fn slot_reusing(
    source: &mut BitSource,
    there: bool,
    width: u32,
    may: bool,
    row: Row,
) -> Result<u8, Refused>
    requires { width ≤ 8 }
    ensures { Gives result source.new ((slot there 0 (field width (reused may row))).read source.old) }
{
    if there {
        reusing(source, width, may, row)
    } else {
        Ok(0)
    }
}

/// Whether a number is in a range.
fn within(i: usize, from: usize, to: usize) -> bool
    ensures { result ≡ (nat_le from i && nat_lt i to) }
{
    from <= i && i < to
}

/// A bit for each number from `from` up to but not `to`, of 18.
pub fn bits(source: &mut BitSource, from: usize, to: usize) -> Result<[Option<bool>; 18], Refused>
    ensures { Gives result source.new ((each 18 0 (λ i. given (nat_le from i && nat_lt i to) flag)).read source.old) }
{
    let mut all = [None; 18];
    for i in 0..18 {
        let there = within(i, from, to);
        all[i] = optional_bit(source, there)?;
    }
    Ok(all)
}

/// Passes over free bits, all of them or none.
pub fn pass(source: &mut BitSource, bits: u32) -> Result<(), Refused>
    ensures { GivesPart (λ _. record {}) result source.new ((free bits).read source.old) }
{
    if source.left() < bits {
        return Err(Refused::OutOfBits);
    }
    pass_over(source, bits);
    Ok(())
}

/// How many bits of these go at once.
pub(crate) fn piece(more: u32) -> u32
    requires { 0 < more }
    ensures some { 0 < result }
    ensures within { result ≤ more }
    ensures word { result ≤ 32 }
{
    if more < 32 { more } else { 32 }
}

/// Passes over bits that are there.
fn pass_over(source: &mut BitSource, bits: u32)
    requires { bits ≤ length source.old }
    ensures { source.new ≡ drop bits source.old }
{
    let mut more = bits;
    while more > 0 {
        let width = piece(more);
        let _ = source.take(width);
        more -= width;
    }
}
