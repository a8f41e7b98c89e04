//! Connections and events: each event does the operations that it asks for.
#![tactic(auto)]

mod event;
mod gateway;
mod link;
#[cfg(test)]
mod tests;

pub use event::{Event, Piece};
pub use gateway::Gateway;
pub use link::Link;
