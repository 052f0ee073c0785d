//! Sources in memory for the tests.
use ac_io::MemSource;
use std::alloc::{AllocError, Global};

fn once(alloc: Global, bytes: &[u8], failing: &[u64]) -> Result<MemSource, AllocError> {
    Ok(MemSource::new(bytes.to_vec(alloc)?, failing.to_vec(alloc)?))
}

/// A source of these bytes, whose calls with these numbers fail; made again once where memory was wanting.
pub(crate) fn source(
    rt: &HostRuntime,
    bytes: &[u8],
    failing: &[u64],
) -> Result<MemSource, AllocError> {
    if let Ok(source) = once(rt.alloc(), bytes, failing) {
        return Ok(source);
    }
    let _ = println!(rt; "made again");
    once(rt.alloc(), bytes, failing)
}
