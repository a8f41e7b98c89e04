//! The procedures of NFS version 3 that change names and attributes, over a tree, the log of its edits, a store, and the calls
//! that were answered (RFC 1813 sections 3.3.2 and 3.3.8 to 3.3.15).
#![tactic(auto)]

mod call;
mod change;
mod laws;
mod reply;
mod request;

pub use call::{NameDone, answer};
pub use change::{Changed, FileSystem};
pub use laws::change_laws;
