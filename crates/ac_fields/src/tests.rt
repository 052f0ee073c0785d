// Fields by hand, from the rows of A/52 5.3 and what this encoder writes in them.
use super::*;
use ac_base::Shape;

#[test]
fn levels_by_acmod(rt: HostRuntime) {
    for (acmod, cmixlev, surmixlev, dsurmod) in [
        (1, None, None, None),
        (2, None, None, Some(0)),
        (3, Some(0), None, None),
        (4, None, Some(0), None),
        (5, Some(0), Some(0), None),
        (6, None, Some(0), None),
        (7, Some(0), Some(0), None),
    ] {
        let shape = Shape::new(2, acmod, true, 60, None, 96).expect(&rt, "the shape is one");
        let head = frame_head(&shape, 36, 0xABCD);
        assert_eq!(rt; head.syncword, 0x0B77);
        assert_eq!(rt; head.crc1, 0xABCD);
        assert_eq!(rt; head.fscod, 2);
        assert_eq!(rt; head.frmsizecod, 36);
        assert_eq!(rt; head.bsid, 8);
        assert_eq!(rt; head.acmod, acmod);
        assert_eq!(rt; head.cmixlev, cmixlev, "acmod {acmod}");
        assert_eq!(rt; head.surmixlev, surmixlev, "acmod {acmod}");
        assert_eq!(rt; head.dsurmod, dsurmod, "acmod {acmod}");
        assert_eq!(rt; head.lfeon, true);
        assert_eq!(rt; head.dialnorm, 31);
        assert_eq!(rt; head.origbs, true);
        assert_eq!(rt; head.addbsil, None);
    }
}
