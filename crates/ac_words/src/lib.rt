//! The command line: its words read into a command with its options, and three names.
//!
//! The grammar is a relation between the words and what they mean. `names` and `command` answer `Usage`
//! exactly where the words have no meaning, but that there may be too little memory to say so. The shape of the words
//! is tested here; in words of that shape clap finds the value behind each option, an option that stands twice and
//! one that is missing; the values are read here.
#![tactic(auto)]

mod coupling;
mod fault;
mod found;
mod laws;
mod meaning;
mod number;
mod options;
mod read;
mod shape;
mod values;

pub use fault::WordsFault;
pub use laws::words_mean_one_thing;
pub use meaning::{Command, Couple, Names, Options};
pub use read::{command, names};

#[cfg(test)]
mod tests;
