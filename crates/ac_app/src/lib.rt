//! The top call: all that the program does, over a source and two sinks.
#![tactic(auto)]

mod decoding;
mod law;
mod top;

pub use ac_base::Part;
pub use ac_codec::{Refused, Row};
pub use ac_encode::{input_law, stream_law};
pub use ac_io::{
    Failed, MemSink, MemSource, NullSink, Sink, Source, StdSink, StdSource, SureSource,
};
pub use ac_record::FrameFault;
pub use ac_status::Status;
pub use ac_wav::{Field, WavKind};
pub use ac_words::{Command, Couple, Names, Options, WordsFault, command, names};
pub use law::{decode_law, run_law};
pub use top::run;

#[cfg(test)]
mod tests;
