use crate::again::made;
use crate::{NullSink, Sink, Source, SureSource};
use std::test::Fail;

#[test]
fn a_sure_source_gives_all_its_bytes(rt: HostRuntime) -> Result<(), Fail> {
    let mut source = SureSource::new(made(&rt, || [1, 2, 3].to_vec(rt.alloc()))?);
    let mut into = [0; 2];
    assert_eq!(rt; source.read(&mut into), Ok(2));
    assert_eq!(rt; into, [1, 2]);
    assert_eq!(rt; source.read(&mut into), Ok(1));
    assert_eq!(rt; into, [3, 2]);
    assert_eq!(rt; source.read(&mut into), Ok(0));
    Ok(())
}

#[test]
fn the_null_sink_takes_every_piece(rt: HostRuntime) {
    assert_eq!(rt; NullSink.write(&[1, 2, 3]), Ok(()));
    assert_eq!(rt; NullSink.write(&[]), Ok(()));
}
