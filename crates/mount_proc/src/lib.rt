//! The procedures of MOUNT version 3 (RFC 1813 section 5): who mounted what, and what a path that is to be mounted names.
#![tactic(auto)]

mod export;
mod laws;
mod list;
mod mount;
mod path;
mod refusal;

pub use export::export_text;
pub use laws::{mount_laws, path_laws};
pub use list::MountList;
pub use refusal::MountRefusal;

#[cfg(test)]
mod tests;
