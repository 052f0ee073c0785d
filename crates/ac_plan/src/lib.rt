//! The plan of a frame within a budget of nodes: the greatest SNR offset at which some assignment of exponent strategies fits, and
//! one that does, or a bound of that offset.
#![tactic(auto)]

mod answer;
mod floor;
mod held;
mod laws;
mod search;
mod slice;
#[cfg(test)]
mod tests;
mod totals;
mod uniform;
mod window;
mod work;

pub use ac_seek::{Seek, seek};
pub use answer::{Mark, Plan};
pub use laws::floor_law;
pub use search::{plan, plan_in};
pub use window::Held;
pub use work::Work;
