//! How a command ended.
ghost use Rattle.std.specs.Prelude.{◌≡◌};
ghost use Rattle.ac_status.specs.Lines.{code_of};

use ac_base::Part;
use ac_record::FrameFault;
use ac_riff::WavKind;

/// How a command ended.
#[derive(Clone, Copy, Debug, PartialEq, Eq)]
pub enum Status {
    /// The job was done to its end.
    Ok,
    /// The words are outside the grammar.
    Usage,
    /// The input is refused, for this reason and at this place in bytes from its start.
    BadWav(WavKind, u64),
    /// The rate is too low for the layout of the input: this part of the cheapest frame has `needed` bits, and there is room for
    /// `room` of them.
    RateTooLow { part: Part, needed: u32, room: u32 },
    /// The stream is refused at this frame, for this reason.
    BadStream { frame: u64, fault: FrameFault },
    /// The input failed.
    ReadFault,
    /// The output or the report failed.
    WriteFault,
    /// Memory was wanting.
    NoMemory,
    /// The input is needed past its first `limit` bytes, and goes on there.
    TooLong { limit: u64 },
}

impl Status {
    /// The program's exit code.
    pub fn code(&self) -> u8
        ensures { result ≡ code_of self.now }
    {
        match self {
            Status::Ok => 0,
            Status::Usage => 1,
            Status::BadWav(_, _) => 2,
            Status::RateTooLow { .. } => 3,
            Status::BadStream { .. } => 4,
            Status::ReadFault => 6,
            Status::WriteFault => 7,
            Status::NoMemory => 9,
            Status::TooLong { .. } => 11,
        }
    }
}
