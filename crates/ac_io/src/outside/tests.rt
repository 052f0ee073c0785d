use crate::again::made;
use crate::{Failed, MemSource, StdSource, fill};
use std::io::Read;
use std::test::Fail;

#[test]
fn fill_joins_the_pieces_of_its_source(rt: HostRuntime) {
    let front = [1, 2, 3];
    let back = [4, 5];
    let mut source = StdSource::new(front.as_slice().chain(back.as_slice()));
    let mut into = [0; 4];
    assert_eq!(rt; fill(&mut source, &mut into), Ok(4));
    assert_eq!(rt; into, [1, 2, 3, 4]);
    assert_eq!(rt; fill(&mut source, &mut into), Ok(1));
    assert_eq!(rt; into, [5, 2, 3, 4]);
    assert_eq!(rt; fill(&mut source, &mut into), Ok(0));
}

#[test]
fn fill_fails_where_a_read_fails(rt: HostRuntime) -> Result<(), Fail> {
    let mut source = made(&rt, || {
        Ok(MemSource::new([1, 2, 3].to_vec(rt.alloc())?, [1].to_vec(rt.alloc())?))
    })?;
    let mut into = [0; 4];
    assert_eq!(rt; fill(&mut source, &mut into), Err(Failed));
    assert_eq!(rt; fill(&mut source, &mut into), Ok(0));
    Ok(())
}
