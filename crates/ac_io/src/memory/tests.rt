use crate::again::made;
use crate::{Failed, MemSink, MemSource, Sink, Source};
use std::alloc::{AllocError, Global};
use std::test::Fail;

#[test]
fn reads_fail_by_their_numbers_and_take_nothing(rt: HostRuntime) -> Result<(), Fail> {
    let mut source = made(&rt, || {
        Ok(MemSource::new(
            [1, 2, 3, 4, 5].to_vec(rt.alloc())?,
            [0, 2].to_vec(rt.alloc())?,
        ))
    })?;
    let mut into = [9; 2];
    assert_eq!(rt; source.read(&mut into), Err(Failed));
    assert_eq!(rt; into, [9, 9]);
    assert_eq!(rt; source.read(&mut into), Ok(2));
    assert_eq!(rt; into, [1, 2]);
    assert_eq!(rt; source.read(&mut into), Err(Failed));
    assert_eq!(rt; source.read(&mut into), Ok(2));
    assert_eq!(rt; into, [3, 4]);
    assert_eq!(rt; source.read(&mut into), Ok(1));
    assert_eq!(rt; into, [5, 4]);
    assert_eq!(rt; source.read(&mut into), Ok(0));
    Ok(())
}

/// A sink whose call 1 fails, after three calls, and their answers.
fn written(alloc: Global) -> Result<(MemSink, [Result<(), Failed>; 3]), AllocError> {
    let mut sink = MemSink::new([7].to_vec(alloc)?, [1].to_vec(alloc)?);
    let answers = [sink.write(&[1, 2]), sink.write(&[3, 4]), sink.write(&[5])];
    if sink.starved() > 0 {
        return Err(AllocError);
    }
    Ok((sink, answers))
}

#[test]
fn writes_fail_by_their_numbers_and_add_nothing(rt: HostRuntime) -> Result<(), Fail> {
    let (sink, answers) = made(&rt, || written(rt.alloc()))?;
    assert_eq!(rt; answers, [Ok(()), Err(Failed), Ok(())]);
    assert_eq!(rt; sink.bytes(), [7, 1, 2, 5].as_slice());
    assert_eq!(rt; sink.starved(), 0);
    Ok(())
}
