//! What was sent ahead of its place: the later codes of a group go with its first (A/52 7.3.5).
ghost use Rattle.std.specs.Prelude.{◌≡◌, ◌≤◌};
ghost use Rattle.ac_base.specs.Counts.{code_width};
ghost use Rattle.ac_mant.specs.Groups.{closed, turn, after, first_width, number_width, first_limit, number_limit};
ghost use Rattle.ac_mant.specs.Quantiser.{code_limit};

/// How many codes of the last group of pointers 1, 2 and 4 are still to come.
#[derive(Clone, Copy, Debug, PartialEq, Eq)]
pub struct Ahead {
    /// Of pointer 1, in groups of three.
    pub one: u8,
    /// Of pointer 2, in groups of three.
    pub two: u8,
    /// Of pointer 4, in groups of two.
    pub four: u8,
}

/// No group is open.
pub fn none() -> Ahead
    ensures { result ≡ closed }
{
    Ahead {
        one: 0,
        two: 0,
        four: 0,
    }
}

/// After one code more of groups of this size.
#[inline]
fn turned(size: u8, left: u8) -> u8
    ensures { result ≡ turn size left }
{
    if left == 0 {
        size.saturating_sub(1)
    } else {
        left - 1
    }
}

/// After one mantissa more.
#[inline]
pub fn then(ahead: Ahead, bap: u8) -> Ahead
    ensures { result ≡ after ahead bap }
{
    match bap {
        1 => Ahead {
            one: turned(3, ahead.one),
            ..ahead
        },
        2 => Ahead {
            two: turned(3, ahead.two),
            ..ahead
        },
        4 => Ahead {
            four: turned(2, ahead.four),
            ..ahead
        },
        _ => ahead,
    }
}

/// The bits of each pointer's own codes, none for those that go in groups (A/52 Tables 7.17, 7.18).
const CODE_WIDTHS: [u8; 16] = [0, 0, 0, 3, 0, 4, 5, 6, 7, 8, 9, 10, 11, 12, 14, 16];

/// The bits of a code of its own.
#[inline]
pub fn own_width(bap: u8) -> u8
    requires { bap ≤ 15 }
    ensures { result ≡ code_width bap }
{
    CODE_WIDTHS[bap as usize]
}

/// The bits of a group's number, where it stands here.
#[inline]
fn group_width(left: u8, width: u8) -> u8
    ensures { result ≡ first_width left width }
{
    if left == 0 { width } else { 0 }
}

/// The bits of the number that stands at a mantissa.
#[inline]
pub fn width_at(ahead: Ahead, bap: u8) -> u8
    requires { bap ≤ 15 }
    ensures { result ≡ number_width ahead bap }
{
    match bap {
        1 => group_width(ahead.one, 5),
        2 => group_width(ahead.two, 7),
        4 => group_width(ahead.four, 7),
        _ => own_width(bap),
    }
}

/// The first number that stands for no code of its own pointer (A/52 Table 7.17).
const OWN_LIMITS: [u32; 16] = [
    1, 3, 5, 7, 11, 15, 32, 64, 128, 256, 512, 1024, 2048, 4096, 16384, 65536,
];

/// The same, of a code of its own.
#[inline]
#[tactic(auto, unfolding(crate::specs::Quantiser::levels, crate::specs::Quantiser::width), using(crate::proofs::Pointers::limit_listed))]
pub fn own_limit(bap: u8) -> u32
    requires { bap ≤ 15 }
    ensures { result ≡ code_limit bap }
{
    OWN_LIMITS[bap as usize]
}

/// The same, of a group's number.
#[inline]
fn group_limit(left: u8, limit: u32) -> u32
    ensures { result ≡ first_limit left limit }
{
    if left == 0 { limit } else { 1 }
}

/// The first number that is refused at a mantissa.
#[inline]
pub fn limit_at(ahead: Ahead, bap: u8) -> u32
    requires { bap ≤ 15 }
    ensures { result ≡ number_limit ahead bap }
{
    match bap {
        1 => group_limit(ahead.one, 27),
        2 => group_limit(ahead.two, 125),
        4 => group_limit(ahead.four, 121),
        _ => own_limit(bap),
    }
}
