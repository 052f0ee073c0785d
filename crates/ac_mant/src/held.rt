//! The codes of groups whose first code was read (A/52 7.3.5).
ghost use Rattle.std.specs.Prelude.{◌≡◌, ◌≤◌, ◌*◌};
ghost use Rattle.ac_mant.specs.Unpacking.{nothing, of_three, of_two, opened, ahead_in, codes_in};
ghost use Rattle.std.specs.Prelude.{length};

use crate::ahead::Ahead;

/// Codes that are still to come of a group.
#[derive(Clone, Copy, Debug, PartialEq, Eq)]
pub enum Codes {
    /// The group is at its end.
    None,
    /// The last code.
    One(u16),
    /// The last two codes, in their order.
    Two(u16, u16),
}

/// The codes that are still to come, of groups of pointer 1, 2 and 4.
#[derive(Clone, Copy, Debug, PartialEq, Eq)]
pub struct Held {
    /// Of pointer 1.
    pub one: Codes,
    /// Of pointer 2.
    pub two: Codes,
    /// Of pointer 4.
    pub four: Codes,
}

/// No group is open.
pub fn nothing() -> Held
    ensures { result ≡ nothing }
{
    Held {
        one: Codes::None,
        two: Codes::None,
        four: Codes::None,
    }
}

/// How many codes are still to come.
#[inline]
fn count(codes: Codes) -> u8
    ensures { result ≡ length (codes_in codes) }
{
    match codes {
        Codes::None => 0,
        Codes::One(_) => 1,
        Codes::Two(_, _) => 2,
    }
}

/// How many codes of each kind are still to come.
#[inline]
pub fn ahead(held: Held) -> Ahead
    ensures { result ≡ ahead_in held }
{
    Ahead {
        one: count(held.one),
        two: count(held.two),
        four: count(held.four),
    }
}

/// The code at hand of a group of three, and those still to come; `number` is that of the group where none was held.
#[inline]
fn of_three(levels: u16, number: u16, codes: Codes) -> (u16, Codes)
    requires least { 1 ≤ levels }
    requires most { levels ≤ 5 }
    ensures { result ≡ of_three levels number codes }
{
    match codes {
        Codes::None => (
            number / (levels * levels),
            Codes::Two(number / levels % levels, number % levels),
        ),
        Codes::One(a) => (a, Codes::None),
        Codes::Two(a, b) => (a, Codes::One(b)),
    }
}

/// Likewise of a group of two.
#[inline]
fn of_two(levels: u16, number: u16, codes: Codes) -> (u16, Codes)
    requires { 1 ≤ levels }
    ensures { result ≡ of_two levels number codes }
{
    match codes {
        Codes::None => (number / levels, Codes::One(number % levels)),
        Codes::One(a) => (a, Codes::None),
        Codes::Two(a, b) => (a, Codes::One(b)),
    }
}

/// The code of a mantissa, and what is still to come behind it, by the number that stands there.
#[inline]
pub fn opened(held: Held, bap: u8, number: u16) -> (u16, Held)
    ensures { result ≡ opened held bap number }
{
    match bap {
        1 => {
            let (code, one) = of_three(3, number, held.one);
            (code, Held { one, ..held })
        }
        2 => {
            let (code, two) = of_three(5, number, held.two);
            (code, Held { two, ..held })
        }
        4 => {
            let (code, four) = of_two(11, number, held.four);
            (code, Held { four, ..held })
        }
        _ => (number, held),
    }
}
