//! The store over a folder of files of the operating system: each object in a file of its own. What
//! the files hold is not told; calls and failures are counted.
#![tactic(auto)]

mod folder;
mod host_file;
mod host_store;
mod names;
mod spill_folder;

pub use folder::{Disk, FolderFault};
pub use host_file::HostFile;
pub use host_store::HostStore;
pub use names::{names_law, object_of, push_name};
pub use spill_folder::{FolderDevice, SpillFolder};

#[cfg(test)]
mod tests;
