// What is told of one file: GETATTR, LOOKUP, ACCESS and READLINK.
ghost use Rattle.std.specs.Prelude.{◌≤◌};
ghost use Rattle.name_queries.specs.Outcomes.{IsOutcome};
ghost use Rattle.name_queries.specs.Queries.{access_outcome, getattr_outcome, lookup_outcome, readlink_outcome};

use crate::found::{file_attr, found_file};
use gw_model::FileId;
use gw_model::status::{NFS3ERR_INVAL, NFS3ERR_STALE};
use handles::handle_of;
use name_tree::Tree;
use nfs_wire::{DirOp, Res};
use rpc_msg::Caller;

/// GETATTR (RFC 1813 section 3.3.1).
pub fn getattr<'a>(tree: &'a Tree, fsid: u64, handle: &[u8]) -> Result<Res<'a>, u32>
    ensures { IsOutcome result (getattr_outcome tree.now.tree fsid handle.now) }
{
    match found_file(tree, fsid, handle) {
        Ok(found) => Ok(Res::Getattr { attr: found.attr }),
        Err(status) => Err(status),
    }
}

/// LOOKUP (RFC 1813 section 3.3.3).
pub fn lookup<'a>(tree: &'a Tree, fsid: u64, caller: &Caller, place: &DirOp) -> Result<Res<'a>, u32>
    requires { caller.now.gid_count ≤ 16 }
    ensures { IsOutcome result (lookup_outcome tree.now.tree fsid caller.now place.now) }
{
    let dir = found_file(tree, fsid, place.dir.as_slice())?;
    let file = tree.lookup(caller, FileId(dir.file), place.name.as_slice())?;
    match file_attr(tree, fsid, file.0) {
        Some(attr) => Ok(Res::Lookup {
            handle: handle_of(file, fsid),
            attr,
        }),
        None => Err(NFS3ERR_STALE),
    }
}

/// ACCESS (RFC 1813 section 3.3.4).
pub fn access<'a>(
    tree: &'a Tree,
    fsid: u64,
    caller: &Caller,
    handle: &[u8],
    mask: u32,
) -> Result<Res<'a>, u32>
    requires { caller.now.gid_count ≤ 16 }
    ensures { IsOutcome result (access_outcome tree.now.tree fsid caller.now handle.now mask) }
{
    match found_file(tree, fsid, handle) {
        Ok(found) => Ok(Res::Access {
            attr: found.attr,
            mask: tree.access(caller, FileId(found.file), mask),
        }),
        Err(status) => Err(status),
    }
}

/// READLINK (RFC 1813 section 3.3.5).
pub fn readlink<'a>(tree: &'a Tree, fsid: u64, handle: &[u8]) -> Result<Res<'a>, u32>
    ensures { IsOutcome result (readlink_outcome tree.now.tree fsid handle.now) }
{
    let found = found_file(tree, fsid, handle)?;
    match tree.path(FileId(found.file)) {
        Some(path) => Ok(Res::Readlink { path }),
        None => Err(NFS3ERR_INVAL),
    }
}
