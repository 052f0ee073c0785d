//! A stream of frames decoded from a source to a WAV, a frame at a time.
#![tactic(auto)]

mod emit;
mod frames;
mod halt;
mod lines;
mod next;
mod stream;
mod work;

pub use ac_dec::Decoder;
pub use ac_io::{Sink, Source, Unread};
pub use ac_record::FrameFault;
pub use ac_world::Broken;
pub use halt::Halt;
pub use stream::decode;
pub use work::{DecodeWork, open};

#[cfg(test)]
mod tests;
