//! Lines of the report.
ghost use Rattle.std.specs.Prelude.{◌≡◌, ◌+◌, ◌≤◌, ◌++◌, decimal};
ghost use Rattle.arrayvec.specs.ArrayString.{array_string_len};

use arrayvec::ArrayString;
use itoa::Buffer;

/// A line of the report; none is longer.
pub type Line = ArrayString<128>;

/// Puts a number in decimal digits behind a line that has room for it.
pub fn push_number(line: &mut Line, number: u64)
    requires { array_string_len line.old + 20 ≤ 128 }
    ensures adds { line.new.bytes ≡ line.old.bytes ++ decimal number }
    ensures len { array_string_len line.new ≤ array_string_len line.old + 20 }
{
    let mut buffer = Buffer::new();
    line.push_str(buffer.format(number));
}
