use crate::again::made;
use crate::{MemSource, StdSource, Unread, fill, read_within};
use std::test::Fail;

#[test]
fn reads_stand_within_the_limit(rt: HostRuntime) {
    let bytes = [1, 2, 3, 4, 5];
    for (limit, count, answer, left) in [
        (5, 4, Ok(4), 1),
        (5, 6, Ok(5), 0),
        (1 << 33, 6, Ok(5), 0),
        (4, 4, Ok(4), 1),
        (3, 4, Err(Unread::TooLong), 1),
        (0, 1, Err(Unread::TooLong), 4),
        (0, 0, Ok(0), 5),
    ] {
        assert!(rt; count <= 6);
        let mut source = StdSource::new(bytes.as_slice());
        let mut into = [0; 6];
        assert_eq!(rt;
            read_within(&mut source, 0, limit, &mut into[..count]),
            answer
        );
        assert_eq!(rt; fill(&mut source, &mut into), Ok(left));
    }
}

#[test]
fn a_failed_read_is_told(rt: HostRuntime) -> Result<(), Fail> {
    let mut source = made(&rt, || {
        Ok(MemSource::new([1, 2, 3].to_vec(rt.alloc())?, [1].to_vec(rt.alloc())?))
    })?;
    let mut into = [0; 3];
    assert_eq!(rt;
        read_within(&mut source, 0, 2, &mut into),
        Err(Unread::Failed)
    );
    assert_eq!(rt;
        read_within(&mut source, 2, 2, &mut into),
        Err(Unread::TooLong)
    );
    Ok(())
}
