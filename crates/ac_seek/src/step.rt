//! Steps of a search.

use ac_base::Run;

/// A run of a coded channel.
#[derive(Clone, Copy, Debug, Default, PartialEq, Eq)]
pub struct Step {
    pub channel: u8,
    pub run: Run,
}
