ghost use Rattle.std.specs.Prelude.{◌<◌, ◌*◌, ◌^◌, unsigned_abs};
ghost use Rattle.ac_base.specs.Sigma.{Within};

use super::*;

#[test]
fn halves_round_upwards(rt: HostRuntime) {
    for (v, want) in [
        (24, 2),
        (23, 1),
        (8, 1),
        (7, 0),
        (-8, 0),
        (-9, -1),
        (-24, -1),
        (-25, -2),
    ] {
        assert_eq!(rt; Fix::<4> { v }.round::<0>().v, want, "at {v}");
    }
}

#[test]
fn roots_of_squares_and_their_neighbours(rt: HostRuntime) {
    let largest = u64::MAX;
    let square = u128::from(largest) * u128::from(largest);
    for (x, want) in [
        (0, 0),
        (3, 1),
        (4, 2),
        (8, 2),
        (9, 3),
        (square, largest),
        (square - 1, largest - 1),
    ] {
        assert_eq!(rt; isqrt(x), want);
    }
}

fn constant<const N: usize>(value: i32) -> [i32; N]
    requires { 4 * N < 2 ^ 63 }
    ensures { Within (unsigned_abs value) N result }
{
    [value; N]
}

#[test]
fn dot_at_bounds(rt: HostRuntime) {
    let most = constant::<256>(1 << 24);
    assert_eq!(rt; dot(&most, &constant::<256>(1 << 30)), 1i64 << 62);
    let few = constant::<256>(-(1 << 24));
    assert_eq!(rt; dot(&few, &constant::<256>(1 << 30)), -(1i64 << 62));
    let many = constant::<512>(1 << 23);
    assert_eq!(rt; dot(&many, &constant::<512>(1 << 30)), 1i64 << 62);
    assert_eq!(rt; add_product(5, 3, -4), -7);
}
