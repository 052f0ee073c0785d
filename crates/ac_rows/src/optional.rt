//! Values that may be there.
ghost use Rattle.std.specs.Prelude.{◌≡◌, ◌&&◌, ◌||◌, if◌then◌else◌};
ghost use Rattle.ac_rows.specs.Filled.{holds, number};

/// A flag that counts as 0 where it isn't there.
#[inline]
pub fn holds(flag: Option<bool>) -> bool
    ensures { result ≡ holds flag }
{
    match flag {
        Some(flag) => flag,
        None => false,
    }
}

/// A number that counts as 0 where it isn't there.
#[inline]
pub fn number(value: Option<u8>) -> u8
    ensures { result ≡ number value }
{
    match value {
        Some(value) => value,
        None => 0,
    }
}

/// Whether both hold.
#[inline]
pub fn both(a: bool, b: bool) -> bool
    ensures { result ≡ (a && b) }
{
    a && b
}

/// Whether one holds.
#[inline]
pub fn either(a: bool, b: bool) -> bool
    ensures { result ≡ (a || b) }
{
    a || b
}

/// A number where the test holds, else 0.
#[inline]
pub fn count_where(there: bool, count: usize) -> usize
    ensures { result ≡ if there then count else 0 }
{
    if there { count } else { 0 }
}
