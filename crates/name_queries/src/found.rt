// The file that a handle names.
ghost use Rattle.std.specs.Prelude.{◌≡◌, ◌<◌, ◌^◌};
ghost use Rattle.name_queries.specs.Found.{file_attr, found_by_numbers, found_file};

use gw_model::FileId;
use gw_model::status::{NFS3ERR_BADHANDLE, NFS3ERR_STALE};
use handles::file_of;
use name_tree::Tree;
use nfs_types::Attr;

/// A file of the tree.
#[derive(Clone, Copy)]
pub struct Found {
    pub file: u64,
    /// With the number of the file system.
    pub attr: Attr,
}

/// The attributes of a file, with the number of its file system.
pub fn file_attr(tree: &Tree, fsid: u64, file: u64) -> Option<Attr>
    ensures { result ≡ file_attr tree.now.tree fsid file }
{
    match tree.attr(FileId(file)) {
        Some(attr) => Some(Attr { fsid, ..*attr }),
        None => None,
    }
}

fn found_by_numbers(tree: &Tree, fsid: u64, file: u64, system: u64) -> Result<Found, u32>
    ensures found { result ≡ found_by_numbers tree.now.tree fsid file system }
    ensures low { file < 2 ^ 64 }
    ensures low_system { system < 2 ^ 64 }
{
    if system != fsid {
        return Err(NFS3ERR_STALE);
    }
    match file_attr(tree, fsid, file) {
        Some(attr) => Ok(Found { file, attr }),
        None => Err(NFS3ERR_STALE),
    }
}

/// The file of a handle, or the status by which each procedure refuses the handle first (RFC 1813 section 2.6).
#[tactic(auto, unfolding(crate::specs::Found::found_file))]
pub fn found_file(tree: &Tree, fsid: u64, handle: &[u8]) -> Result<Found, u32>
    ensures { result ≡ found_file tree.now.tree fsid handle.now }
{
    match file_of(handle) {
        Some((file, system)) => found_by_numbers(tree, fsid, file.0, system),
        None => Err(NFS3ERR_BADHANDLE),
    }
}
