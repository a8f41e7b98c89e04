//! The pending writes of one open file, in memory or on its spill device.
#![tactic(auto)]

mod comparing;
mod freeing;
mod loading;
mod reports;
mod steps;
mod writes;

pub use reports::{Comparison, Load, SpillMove};
pub use writes::PendingWrites;

#[cfg(test)]
mod tests;
