//! From groups to exponents.
ghost use Rattle.std.specs.Prelude.{◌≡◌, ◌↔◌, ℕ, ◌+◌, ◌*◌, ◌/◌, ◌%◌, ◌≤◌};
ghost use Rattle.std.specs.Prelude.{IsTrue, IfOk, IfErr, MatchOption, MatchResult, length, slice_index};
ghost use Rattle.ac_base.specs.Spans.{IsIn, IsKind};
ghost use Rattle.ac_base.specs.Shape.{IsSpan};
ghost use Rattle.ac_base.specs.Spans.{groups_of};
ghost use Rattle.ac_expo.specs.Greatest.{IsSpellable};
ghost use Rattle.ac_expo.specs.Groups.{IsFirstRefused, NoneRefused, IsExpanded};
ghost use Rattle.ac_expo.specs.Sums.{with_group, AreSums, IsBadSum, HasBadSum, IsBadGroup, AreGoodSums, AreOfSums};

use crate::grouping::before;
use crate::spelled::Spelled;
use crate::steps::step;
use ac_base::{Lead, Span};

/// The groups give no exponents: the group at `place` is the first that is over 124, or that gives an exponent outside
/// 0 to 24 at a bin below the end.
#[derive(Clone, Copy, Debug, PartialEq, Eq)]
pub struct BadExponent {
    pub place: u8,
}

/// The group of three differences of 2.
const GREATEST_GROUP: u8 = 124;

/// Puts the sums of the three steps of a group behind that of step `at`, and answers the last.
#[inline]
fn put_group(group: u8, at: usize, sum: u16, sums: &mut [u16; 256]) -> u16
    requires place { at ≤ 252 }
    requires room { sum ≤ 30 + 10 * at }
    ensures sums { sums.new ≡ with_group group at sum sums.old }
    ensures last { result ≡ sum + group / 25 + group / 5 % 5 + group % 5 }
    ensures bound { result ≤ 60 + 10 * at }
{
    let first = sum + u16::from(group / 25);
    let second = first + u16::from(group / 5 % 5);
    let third = second + u16::from(group % 5);
    sums[at + 1] = first;
    sums[at + 2] = second;
    sums[at + 3] = third;
    third
}

/// The reference and the first differences, each plus 2, up to each step that the groups spell: the exponent of step `g` is the
/// sum less `2 g`, where it isn't below 0 (A/52 7.1.3).
///
/// The first exponent is at most 15.
pub fn sums_of(lead: Lead, spelled: &Spelled) -> [u16; 256]
    requires { spelled.now.first ≤ 15 }
    ensures { AreSums lead spelled.now (3 * length spelled.now.groups) result }
{
    let mut sums = [0; 256];
    let mut sum = u16::from(before(lead, spelled.first()));
    sums[0] = sum;
    for place in 0..spelled.len() {
        sum = put_group(
            spelled.group_at(place),
            3 * usize::from(place),
            sum,
            &mut sums,
        );
    }
    sums
}

/// Whether the exponent of a step up to the last one with a bin is outside 0 to 24.
fn is_bad(sums: &[u16; 256], last: usize, at: usize) -> bool
    requires { last ≤ 252 }
    ensures { IsTrue result ↔ IsBadSum sums.now last at }
{
    if at > last {
        return false;
    }
    let sum = usize::from(sums[at]);
    sum < 2 * at || sum > 2 * at + 24
}

/// Whether the exponent of one of the next three steps is.
fn has_bad(sums: &[u16; 256], last: usize, at: usize) -> bool
    requires last { last ≤ 252 }
    requires at { at ≤ 252 }
    ensures { IsTrue result ↔ HasBadSum sums.now last at }
{
    is_bad(sums, last, at + 1) || is_bad(sums, last, at + 2) || is_bad(sums, last, at + 3)
}

/// Whether a group is over 124 or gives an exponent outside 0 to 24 at one of the steps behind step `at`.
#[inline]
fn is_bad_group(group: u8, sums: &[u16; 256], last: usize, at: usize) -> bool
    requires last { last ≤ 252 }
    requires at { at ≤ 252 }
    ensures { IsTrue result ↔ IsBadGroup group sums.now last at }
{
    group > GREATEST_GROUP || has_bad(sums, last, at)
}

/// The place of the first group that is refused.
fn first_refused(kind: u8, span: &Span, spelled: &Spelled, sums: &[u16; 256]) -> Option<u8>
    requires kind { IsKind kind span.now }
    requires span { IsSpan span.now }
    requires count { length spelled.now.groups ≡ groups_of kind span.now }
    requires sums { AreSums span.now.lead spelled.now (3 * length spelled.now.groups) sums.now }
    ensures { MatchOption result (NoneRefused kind span.now spelled.now) (λ place. IsFirstRefused kind span.now spelled.now place) }
{
    let last = step(kind, span, usize::from(span.end) - 1);
    for place in 0..spelled.len() {
        if is_bad_group(spelled.group_at(place), sums, last, 3 * usize::from(place)) {
            return Some(place);
        }
    }
    None
}

/// Tests that a spelling gives exponents to the bins of its span (A/52 7.1.3).
///
/// The spelling has the groups of its kind and span, and a first exponent of at most 15.
///
/// # Errors
///
/// `BadExponent` exactly where a group is over 124 or gives an exponent outside 0 to 24 at a bin below the end, with the place of
/// the first such group.
pub fn check(kind: u8, span: &Span, spelled: &Spelled) -> Result<(), BadExponent>
    requires kind { IsKind kind span.now }
    requires span { IsSpan span.now }
    requires count { length spelled.now.groups ≡ groups_of kind span.now }
    requires first { spelled.now.first ≤ 15 }
    ensures cause { MatchResult result (λ _. NoneRefused kind span.now spelled.now)
        (λ bad. IsFirstRefused kind span.now spelled.now bad.place) }
{
    match first_refused(kind, span, spelled, &sums_of(span.lead, spelled)) {
        Some(place) => Err(BadExponent { place }),
        None => Ok(()),
    }
}

/// Gives each bin of the span the exponent of its step.
fn write(sums: &[u16; 256], kind: u8, span: &Span, out: &mut [u8; 256])
    requires kind { IsKind kind span.now }
    requires span { IsSpan span.now }
    requires within { AreGoodSums kind span.now sums.now }
    ensures value { AreOfSums kind span.now sums.now out.new }
    ensures rest { (k : ℕ) → (IsIn span.now k → ⊥) → slice_index out.new k ≡ slice_index out.old k }
{
    for k in usize::from(span.start)..usize::from(span.end) {
        let at = step(kind, span, k);
        out[k] = (usize::from(sums[at]) - 2 * at) as u8;
    }
}

/// The exponents of a spelling, in the bins of the span (A/52 7.1.3). Entries outside the span stay as they were.
///
/// The spelling has the groups of its kind and span, and a first exponent of at most 15.
///
/// # Errors
///
/// `BadExponent` exactly where a group is over 124 or gives an exponent outside 0 to 24 at a bin below the end, with the place of
/// the first such group. Then `out` stays as it was.
pub fn expand(
    kind: u8,
    span: &Span,
    spelled: &Spelled,
    out: &mut [u8; 256],
) -> Result<(), BadExponent>
    requires kind { IsKind kind span.now }
    requires span { IsSpan span.now }
    requires count { length spelled.now.groups ≡ groups_of kind span.now }
    requires first { spelled.now.first ≤ 15 }
    ensures cause { MatchResult result (λ _. NoneRefused kind span.now spelled.now)
        (λ bad. IsFirstRefused kind span.now spelled.now bad.place) }
    ensures value { IfOk result (λ _. IsExpanded kind span.now spelled.now out.new) }
    ensures spellable { IfOk result (λ _. IsSpellable kind span.now out.new) }
    ensures rest { IfOk result (λ _. (k : ℕ) → (IsIn span.now k → ⊥) → slice_index out.new k ≡ slice_index out.old k) }
    ensures kept { IfErr result (λ _. out.new ≡ out.old) }
{
    let sums = sums_of(span.lead, spelled);
    match first_refused(kind, span, spelled, &sums) {
        Some(place) => Err(BadExponent { place }),
        None => {
            write(&sums, kind, span, out);
            Ok(())
        }
    }
}

#[cfg(test)]
mod tests;
