//! Append-only files and the store that keeps them: what a call does to an object, how much of it
//! is kept over a crash, and a form in memory that fails where it is told to.
#![tactic(auto)]

mod lent;
mod mem_cluster;
mod mem_file;
mod slots;
mod store;

pub use mem_cluster::MemCluster;
pub use mem_file::{MemFile, Planned};
pub use store::{AppendFault, AppendFile, Cluster, CreateFault, ListFault, StoreFault};

#[cfg(test)]
mod tests;
