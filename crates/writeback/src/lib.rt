//! The writer side of an open file: it does the jobs of the line one by one, and what waits for a sync is answered
//! after it.
#![tactic(auto)]

mod calls;
mod owed;
mod writer;

pub use owed::{Failed, Synced};
pub use writer::Writer;

#[cfg(test)]
mod tests;
