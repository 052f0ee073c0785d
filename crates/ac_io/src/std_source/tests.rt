use crate::{Failed, Source, StdSource};
use std::io::{self, ErrorKind, Read};

/// Fails at every read.
#[derive(Drop)]
struct Broken;

impl Read for Broken {
    fn read(&mut self, _buf: &mut [u8]) -> io::Result<usize> {
        Err(io::Error::from(ErrorKind::Other))
    }
}

#[test]
fn a_reader_of_std_is_a_source(rt: HostRuntime) {
    let bytes = [1, 2, 3];
    let mut source = StdSource::new(bytes.as_slice());
    let mut into = [0; 2];
    assert_eq!(rt; source.read(&mut into), Ok(2));
    assert_eq!(rt; into, [1, 2]);
    assert_eq!(rt; source.read(&mut into), Ok(1));
    assert_eq!(rt; into, [3, 2]);
    assert_eq!(rt; source.read(&mut into), Ok(0));
}

#[test]
fn an_error_of_the_reader_is_a_fault(rt: HostRuntime) {
    let start = [1, 2];
    let mut source = StdSource::new(start.as_slice().chain(Broken));
    let mut into = [0; 4];
    assert_eq!(rt; source.read(&mut into), Ok(2));
    assert_eq!(rt; source.read(&mut into), Err(Failed));
    assert_eq!(rt; source.read(&mut into), Err(Failed));
    assert_eq!(rt; into, [1, 2, 0, 0]);
}
