//! The line of a frame.
ghost use Rattle.std.specs.Prelude.{◌≡◌, ◌+◌, ◌≤◌, ◌++◌};
ghost use Rattle.arrayvec.specs.ArrayString.{array_string_len};
ghost use Rattle.ac_encode.specs.Lines.{mark_words, frame_line};

use ac_plan::{Mark, Plan};
use ac_world::{Line, push_number};

fn push_mark(line: &mut Line, plan: &Plan)
    requires { array_string_len line.old + 50 ≤ 128 }
    ensures adds { line.new.bytes ≡ line.old.bytes ++ mark_words plan.now.mark plan.now.offset }
    ensures len { array_string_len line.new ≤ array_string_len line.old + 50 }
{
    match plan.mark {
        Mark::Best => {
            line.push_str(" best ");
            push_number(line, u64::from(plan.offset));
        }
        Mark::Bounded { upper } => {
            line.push_str(" bounded ");
            push_number(line, u64::from(plan.offset));
            line.push_str(" ");
            push_number(line, u64::from(upper));
        }
    }
}

/// The line of frame `i`, of `size` bytes by this plan.
pub fn frame_line(i: u32, size: usize, plan: &Plan) -> Line
    ensures { result.bytes ≡ frame_line i size plan.now }
{
    let mut line = Line::new();
    line.push_str("frame ");
    push_number(&mut line, u64::from(i));
    line.push_str(" size ");
    push_number(&mut line, size as u64);
    push_mark(&mut line, plan);
    line.push_str("\n");
    line
}
