//! Memory for the tests.
use std::alloc::AllocError;

/// What takes memory, made again once where memory was wanting.
pub(crate) fn made<T: Drop, F: Fn() -> Result<T, AllocError>>(
    rt: &HostRuntime,
    make: F,
) -> Result<T, AllocError>
    requires { F.IsAlwaysCallable make }
{
    match make() {
        Ok(value) => Ok(value),
        Err(_) => {
            let _ = println!(rt; "made again");
            make()
        }
    }
}
