use super::*;

#[test]
fn bands_of_couplings(rt: HostRuntime) {
    for (cplbegf, cplendf, subbands, bands) in [
        (0, 15, 18, 2),
        (1, 0, 2, 3),
        (2, 2, 3, 3),
        (3, 12, 12, 4),
        (15, 13, 1, 4),
    ] {
        let at = coupling_subbands(cplbegf, cplendf);
        assert_eq!(rt; at, subbands, "{cplbegf} {cplendf}");
        let at = rematrix_bands(Some((cplbegf, cplendf)));
        assert_eq!(rt; at, bands, "{cplbegf} {cplendf}");
    }
    assert_eq!(rt; rematrix_bands(None), 4);
}

#[test]
fn bins_of_channels(rt: HostRuntime) {
    assert_eq!(rt; free_span(60).end, 253);
    assert_eq!(rt; coupled_span(15).end, 217);
    assert_eq!(rt; coupling_span(15, 13).start, 217);
    assert_eq!(rt; coupling_span(15, 13).end, 229);
    assert_eq!(rt; low_span().end, 7);
}
