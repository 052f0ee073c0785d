//! How many mantissas there are of each kind, and what they cost (A/52 7.3.5).
ghost use Rattle.std.specs.Prelude.{◌≡◌, ◌-◌, ◌≤◌, ◌^◌};
ghost use Rattle.ac_base.specs.Counts.{with_one, exact_of, sixths_of};
ghost use Rattle.ac_mant.specs.Counts.{tally, AreWithin, SixthsAreWithin, ExactCostCanFall};

use crate::ahead::own_width;

/// The mantissas of a block: how many go in groups, by pointer, and the bits of the others.
#[derive(Clone, Copy, Debug, Default, PartialEq, Eq)]
pub struct Counts {
    /// The bits of those that go in no group.
    pub linear: u32,
    /// The number of pointer 1.
    pub n1: u32,
    /// The number of pointer 2.
    pub n2: u32,
    /// The number of pointer 4.
    pub n4: u32,
}

impl Counts {
    /// Counts one mantissa more; `bap` is at most 15, and each count below 2^20.
    pub fn add(&mut self, bap: u8)
        requires pointer { bap ≤ 15 }
        requires bound { AreWithin (2 ^ 20 - 1) self.old }
        ensures { tally self.new ≡ with_one (tally self.old) bap }
    {
        self.linear += u32::from(own_width(bap));
        self.n1 += u32::from(bap == 1);
        self.n2 += u32::from(bap == 2);
        self.n4 += u32::from(bap == 4);
    }
}

/// The bits that they cost, with each last group whole: `linear + 5·ceil(n1/3) + 7·ceil(n2/3) + 7·ceil(n4/2)`. Each count is
/// at most 2^20.
pub fn exact(c: &Counts) -> u32
    requires { AreWithin (2 ^ 20) c.now }
    ensures { result ≡ exact_of (tally c.now) }
{
    c.linear + 5 * c.n1.div_ceil(3) + 7 * c.n2.div_ceil(3) + 7 * c.n4.div_ceil(2)
}

/// The same in sixths of a bit, each mantissa with its share of a group: `6·linear + 10·n1 + 14·n2 + 21·n4`. Each count is at
/// most 2^20.
pub fn sixths(c: &Counts) -> u32
    requires { AreWithin (2 ^ 20) c.now }
    ensures { result ≡ sixths_of (tally c.now) }
{
    6 * c.linear + 10 * c.n1 + 14 * c.n2 + 21 * c.n4
}

/// Laws of these costs: the exact cost is never below that in sixths, and it can fall as the SNR offset rises.
pub fn cost_laws()
    ensures sixths { SixthsAreWithin }
    ensures falls { ExactCostCanFall }
{}
