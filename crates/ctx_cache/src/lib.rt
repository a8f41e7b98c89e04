//! The order in which the files that have a context were used, and which of them another file comes in place of.
#![tactic(auto)]

mod laws;
mod order;

pub use laws::order_laws;
pub use order::{ContextOrder, Entrance};

#[cfg(test)]
mod tests;
