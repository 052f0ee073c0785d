//! The lines of the report.
ghost use Rattle.std.specs.Prelude.{◌≡◌, ◌+◌, ◌≤◌, ◌++◌, decimal};
ghost use Rattle.arrayvec.specs.ArrayString.{array_string_len};
ghost use Rattle.ac_decode.specs.Lines.{frame_line};

use arrayvec::ArrayString;
use itoa::Buffer;

/// A line of the report; none is longer.
pub type Line = ArrayString<64>;

fn push_number(line: &mut Line, number: u64)
    requires { array_string_len line.old + 20 ≤ 64 }
    ensures adds { line.new.bytes ≡ line.old.bytes ++ decimal number }
    ensures len { array_string_len line.new ≤ array_string_len line.old + 20 }
{
    let mut buffer = Buffer::new();
    line.push_str(buffer.format(number));
}

/// The line of frame `i`, of `size` bytes.
pub fn frame(i: u64, size: u16) -> Line
    ensures { result.bytes ≡ frame_line i size }
{
    let mut line = Line::new();
    line.push_str("frame ");
    push_number(&mut line, i);
    line.push_str(" size ");
    push_number(&mut line, u64::from(size));
    line.push_str(" read\n");
    line
}
