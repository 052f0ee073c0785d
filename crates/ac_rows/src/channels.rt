//! What acmod says of the channels (A/52 5.4.2.3).
ghost use Rattle.std.specs.Prelude.{◌≡◌, ◌≤◌};
ghost use Rattle.ac_base.specs.Shape.{full_of, is_stereo, has_center, has_surround};

/// The full channels by acmod (A/52 Table 5.8).
static FULL: [u8; 8] = [2, 1, 2, 3, 3, 4, 4, 5];

/// The number of full channels.
#[inline]
pub fn full_channels(acmod: u8) -> u8
    requires { acmod ≤ 7 }
    ensures value { result ≡ full_of acmod }
    ensures some { 1 ≤ result }
    ensures bound { result ≤ 5 }
{
    FULL[usize::from(acmod)]
}

/// Whether there are two channels, of which alone there is rematrixing.
#[inline]
pub fn stereo(acmod: u8) -> bool
    ensures { result ≡ is_stereo acmod }
{
    acmod == 2
}

/// Whether there is a center among three channels in front.
#[inline]
pub fn center(acmod: u8) -> bool
    ensures { result ≡ has_center acmod }
{
    acmod == 3 || acmod == 5 || acmod == 7
}

/// Whether there are surround channels.
#[inline]
pub fn surround(acmod: u8) -> bool
    ensures { result ≡ has_surround acmod }
{
    acmod >= 4
}
