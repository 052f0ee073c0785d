//! Exponents of runs of blocks: raw exponents, the greatest list that a strategy can spell, its groups, and the
//! strategy codes (A/52 7.1).
#![tactic(auto)]

mod expanding;
mod grouping;
mod laws;
mod lists;
mod raw;
mod raws;
mod run;
mod smooth;
mod spelled;
mod steps;
mod word;

pub use ac_base::Run;
pub use expanding::{BadExponent, check, expand, sums_of};
pub use grouping::group;
pub use laws::{exponent_laws, word_laws};
pub use lists::greatest;
pub use raw::raw_exponent;
pub use raws::RawExps;
pub use run::runs;
pub use spelled::Spelled;
pub use steps::groups;
pub use word::{Assign, Word, word_at};
