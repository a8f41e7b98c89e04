//! The name tree: files, directories and links, the edits that change them, and what the procedures on names come to
//! (RFC 1813 section 3.3).
#![tactic(auto)]

mod access;
mod create;
mod directory;
mod edit;
mod judge;
mod laws;
mod name_rooms;
mod node;
mod remove;
mod rename;
mod request;
mod rooms;
mod set;
mod tree;

pub use directory::Name;
pub use edit::Edit;
pub use laws::tree_laws;
pub use request::{How, Judged, NameRequest, Refused};
pub use tree::{Listed, Tree};

#[cfg(test)]
mod tests;
