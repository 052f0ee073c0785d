//! Steps whose neighbours differ by at most 2, as levels.
ghost use Rattle.std.specs.Prelude.{◌≡◌, ℕ, ◌+◌, ◌-◌, ◌*◌, ◌≤◌, max, slice_index};
ghost use Rattle.ac_levels.specs.Reach.{IsPlace, IsZeroOutside, IsSpread, IsPass};

/// A level raised to its two neighbours less what they fall on the way.
#[inline]
fn raised(here: u8, left: u8, right: u8, fall: u8) -> u8
    ensures { result ≡ max here (max left right - fall) }
{
    here.max(left.max(right).saturating_sub(fall))
}

/// Raises each of n steps to the steps d away.
#[inline]
fn pass(old: &[u8; 288], new: &mut [u8; 288], n: usize, d: usize)
    requires steps { n ≤ 256 }
    requires far { d ≤ 4 }
    ensures inside { IsPass n d old.now new.new }
    ensures outside { (p : ℕ) → (IsPlace n p → ⊥) → slice_index new.new p ≡ slice_index new.old p }
{
    let fall = 16 * d as u8;
    for p in 16..16 + n {
        new[p] = raised(old[p], old[p - d], old[p + d], fall);
    }
}

/// Raises n steps as much as their neighbours ask, into `even`: passes of reach 1, 3, 7 and 11, which is enough for
/// levels up to 192.
pub(crate) fn smooth(places: &[u8; 288], n: usize, odd: &mut [u8; 288], even: &mut [u8; 288])
    requires steps { n ≤ 256 }
    requires odd { IsZeroOutside n odd.old }
    requires even { IsZeroOutside n even.old }
    ensures spread { IsZeroOutside n places.now → IsSpread 11 n places.now even.new }
    ensures odd { IsZeroOutside n odd.new }
    ensures even { IsZeroOutside n even.new }
{
    pass(places, odd, n, 1);
    pass(odd, even, n, 2);
    pass(even, odd, n, 4);
    pass(odd, even, n, 4);
}
