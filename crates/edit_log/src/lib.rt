//! The log of the edits of the tree: their text, the file that they are added to, and what is recovered from the logs of a
//! store.
#![tactic(auto)]

mod fault;
mod fetching;
mod gauge;
mod laws;
mod log;
mod parts;
mod reading;
mod replaying;
mod starting;
mod text;

pub use fault::{LogFault, StartFault};
pub use laws::{judged_law, listing_law, recovery_law, run_law, store_law, text_law};
pub use log::Log;
pub use reading::{EditFault, edits_of};
pub use text::edit_text;

#[cfg(test)]
mod tests;
