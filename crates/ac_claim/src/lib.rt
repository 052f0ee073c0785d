//! Certificates: what a frame's plan claims, that its assignment fits at its SNR offset and that none fits above an upper one, with
//! the trees by which anyone can check it.
#![tactic(auto)]

mod basis;
mod certs;
mod checks;
mod heads;
mod laws;
mod no;
mod nodes;
mod path;
mod potentials;
mod raws;
#[cfg(test)]
mod tests;
mod tree;
mod walk;
mod words;

pub use certs::{Cert, Level, Levels};
pub use checks::check;
pub use laws::certificate_laws;
pub use no::{No, Verdict};
pub use tree::Tree;
