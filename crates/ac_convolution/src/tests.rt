ghost use Rattle.std.specs.Prelude.{◌<◌, ◌*◌, ◌^◌, unsigned_abs};
ghost use Rattle.ac_base.specs.Sigma.{Within};

use super::*;

fn constant<const N: usize>(value: i32) -> [i32; N]
    requires { 4 * N < 2 ^ 63 }
    ensures { Within (unsigned_abs value) N result }
{
    [value; N]
}

#[test]
fn sums_at_their_largest(rt: HostRuntime) {
    let g = constant::<256>(-(1 << 24));
    let h = constant::<256>(1 << 30);
    let mut low = [[0i64; 48]; 32];
    let mut high = [[0i64; 48]; 32];
    kernel_table(&h, &mut low, &mut high);
    let mut out = [0i64; 256];
    negacyclic_correlation(&g, &h, &low, &high, &mut out);
    assert_eq!(rt; out[0], -(1i64 << 62));
    assert_eq!(rt; out[128], 0);
    assert_eq!(rt; out[255], 254 * (1i64 << 54));
}
