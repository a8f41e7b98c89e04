// What calls that aren't of a file's bytes are answered from.
use mount_proc::MountList;
use name_changes::FileSystem;

/// The names of a file system with the calls that were answered, and who mounted what. The log of edits is a parameter of its
/// own beside it, as its type is the store's.
#[derive(Drop)]
pub struct Front {
    pub names: FileSystem,
    pub mounts: MountList,
    /// The path under which the root is mounted.
    pub export: Vec<u8>,
}
