use super::*;

#[test]
fn coefficients_start_at_zero(rt: HostRuntime) {
    let zeros = Coefs::zeros();
    assert_eq!(rt; zeros.c[0][0][0], 0);
    assert_eq!(rt; zeros.c[6][5][255], 0);
}
