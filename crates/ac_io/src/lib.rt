//! Sources and sinks of bytes: the outside as the codec sees it.
//!
//! Both count their faults, and a call fails only where this count rises. Contracts see the bytes to come
//! and the bytes taken as lists, where an object tells them.
#![tactic(auto)]

#[cfg(test)]
mod again;
mod mem_sink;
mod mem_source;
mod memory;
mod outside;
mod std_sink;
mod std_source;
mod sure;
mod within;

pub use mem_sink::MemSink;
pub use mem_source::MemSource;
pub use outside::{Failed, Sink, Source, fill};
pub use std_sink::StdSink;
pub use std_source::StdSource;
pub use sure::{NullSink, SureSource};
pub use within::{Unread, read_within};
