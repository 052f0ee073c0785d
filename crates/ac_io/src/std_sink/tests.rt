use crate::again::made;
use crate::{Failed, Sink, StdSink};
use std::test::Fail;

#[test]
fn a_writer_of_std_is_a_sink(rt: HostRuntime) -> Result<(), Fail> {
    // Room for all, since a writer of std that finds no memory fails as any other.
    let mut held = made(&rt, || Vec::with_capacity(rt.alloc(), 3))?;
    let mut sink = StdSink::new(&mut held);
    assert_eq!(rt; sink.write(&[7]), Ok(()));
    assert_eq!(rt; sink.write(&[1, 2]), Ok(()));
    assert_eq!(rt; sink.write(&[]), Ok(()));
    assert_eq!(rt; held.as_slice(), [7, 1, 2].as_slice());
    Ok(())
}

#[test]
fn a_full_writer_of_std_fails_after_a_front(rt: HostRuntime) {
    let mut held = [0; 3];
    let mut sink = StdSink::new(held.as_mut_slice());
    assert_eq!(rt; sink.write(&[1, 2]), Ok(()));
    assert_eq!(rt; sink.write(&[3, 4]), Err(Failed));
    assert_eq!(rt; held, [1, 2, 3]);
}
