//! What the objects in memory share.
ghost use Rattle.std.specs.Prelude.{◌≡◌, ◌++◌, length, take, drop, min};
ghost use Rattle.ac_io.specs.Memory.{is_named};

#[cfg(test)]
mod tests;

/// Copies as many bytes as both have to the front of `into`, and gives their number.
pub(crate) fn copy_front(from: &[u8], into: &mut [u8]) -> usize
    ensures count { result ≡ min (length from.now) (length into.old) }
    ensures copied { into.new ≡ take result from.now ++ drop result into.old }
{
    let count = from.len().min(into.len());
    into[..count].copy_from_slice(&from[..count]);
    count
}

/// The call with this number fails.
pub(crate) fn is_failing(failing: &[u64], call: u64) -> bool
    ensures { result ≡ is_named failing.now call }
{
    failing.contains(&call)
}
