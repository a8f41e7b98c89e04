//! A store over several stores, each of which has a copy of every object: a call goes to all of them,
//! one that fails is dropped, and the others stay equal. Its files are over the members' files.
#![tactic(auto)]

mod calls;
mod copying;
mod file;
mod kept;
mod listed;
mod marks;
mod members;
mod objects;
mod parts;
mod reopening;
mod rounds;
mod seats;
mod starting;
mod store;

pub use file::ReplicaFile;
pub use marks::marks_law;
pub use parts::Part;
pub use seats::{Known, Seat};
pub use starting::{ReplicaFault, Unstarted};
pub use store::Replica;

#[cfg(test)]
mod tests;
