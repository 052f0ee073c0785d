//! RIFF WAVE: a reader of linear PCM, and the bytes of decoded sound.
//!
//! The samples behind a head are read piece by piece from a source of bytes that never seeks; what is no WAV is refused
//! with the first rule that fails and the place where it fails.
#![tactic(auto)]

mod body;
mod law;
mod samples;
mod written;

pub use ac_riff::{Field, WavFault, WavHead, WavKind, head_law};
pub use body::WavBody;
pub use law::wav_law;
pub use written::{Pcm, wav_head, wav_samples};
