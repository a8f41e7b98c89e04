// The results of a change, and its replies.
ghost use Rattle.std.specs.Prelude.{◌≡◌, ◌++◌, List, ℕ, Result, IfOk};
ghost use Rattle.name_queries.specs.Found.{file_attr};
ghost use Rattle.name_queries.specs.Outcomes.{IsOutcome};
ghost use Rattle.nfs_wire.specs.Results.{Results};
ghost use Rattle.nfs_wire.specs.Views.{results_of};
ghost use Rattle.name_changes.specs.Answers.{changed_results, made_attr, made_results, plain_results, refused_results, reply_text, results_or, results_with, same_outcome};

use gw_model::status::NFS3ERR_STALE;
use gw_model::{FileId, NoMemory};
use handles::handle_of;
use name_tree::{Edit, Tree};
use nfs_types::{Attr, Device, FileType, Time};
use nfs_wire::{Args, Res, absent_words, res_text};
use rpc_msg::accepted_head;
use rpc_msg::numbers::SUCCESS;
use std::alloc::{AllocError, Global};

/// The attributes of what an edit makes at a moment in milliseconds; `None` where it makes nothing.
fn made_attr(edit: &Edit, fsid: u64, moment: u64) -> Option<Attr>
    ensures { result ≡ made_attr fsid moment edit.now }
{
    let Edit::Make {
        id,
        kind,
        mode,
        uid,
        gid,
        path,
        atime,
        mtime,
        ..
    } = edit
    else {
        return None;
    };
    let now = Time::of_moment(moment);
    let size = if *kind == 2 {
        4096
    } else {
        path.bytes().len() as u64
    };
    Some(Attr {
        kind: match *kind {
            2 => FileType::Directory,
            5 => FileType::Link,
            _ => FileType::Regular,
        },
        mode: *mode,
        nlink: if *kind == 2 { 2 } else { 1 },
        uid: *uid,
        gid: *gid,
        size,
        used: size,
        rdev: Device { major: 0, minor: 0 },
        fsid,
        fileid: *id,
        atime: (*atime).unwrap_or(now),
        mtime: (*mtime).unwrap_or(now),
        ctime: now,
    })
}

fn made_results(args: &Args, handle: [u8; 32], attr: Attr) -> Res<'static>
    ensures { results_of result ≡ made_results args.now handle attr }
{
    match args {
        Args::Mkdir { .. } => Res::Mkdir { handle, attr },
        Args::Symlink { .. } => Res::Symlink { handle, attr },
        _ => Res::Create { handle, attr },
    }
}

fn plain_results(args: &Args) -> Res<'static>
    ensures { results_of result ≡ plain_results args.now }
{
    match args {
        Args::Setattr { .. } => Res::Setattr,
        Args::Remove { .. } => Res::Remove,
        Args::Rmdir { .. } => Res::Rmdir,
        _ => Res::Rename,
    }
}

/// The results of a procedure whose edit is done at a moment in milliseconds.
pub fn changed_results(args: &Args, fsid: u64, moment: u64, edit: &Edit) -> Res<'static>
    ensures { results_of result ≡ changed_results args.now fsid moment edit.now }
{
    match made_attr(edit, fsid, moment) {
        Some(attr) => made_results(args, handle_of(FileId(attr.fileid), fsid), attr),
        None => plain_results(args),
    }
}

/// The results of a procedure that changes nothing, since it is so already of this file.
pub fn same_outcome(args: &Args, tree: &Tree, fsid: u64, file: FileId) -> Result<Res<'static>, u32>
    ensures { IsOutcome result (same_outcome args.now tree.now.tree fsid file.0) }
{
    match args {
        Args::Create { .. } => match tree.attr(file) {
            Some(attr) => Ok(Res::Create {
                handle: handle_of(file, fsid),
                attr: Attr { fsid, ..*attr },
            }),
            None => Err(NFS3ERR_STALE),
        },
        _ => Ok(plain_results(args)),
    }
}

/// The results of a procedure that is refused: the status, and the optional parts, which are absent.
pub fn refused_results(args: &Args, status: u32) -> Res<'static>
    ensures { results_of result ≡ refused_results args.now status }
{
    Res::Refused {
        status,
        zeros: absent_words(args).unwrap_or(0),
    }
}

/// The results of an outcome.
pub fn results_or(args: &Args, outcome: Result<Res<'static>, u32>) -> Res<'static>
    ensures { (o : Result Results ℕ) → IsOutcome outcome.entry o → results_of result ≡ results_or args.now o }
{
    match outcome {
        Ok(results) => results,
        Err(status) => refused_results(args, status),
    }
}

fn joined(alloc: Global, head: &[u8], rest: &[u8]) -> Result<Vec<u8>, AllocError>
    ensures { IfOk result (λ v. v.items ≡ head.now ++ rest.now) }
{
    let mut all = Vec::with_capacity(alloc, head.len() + rest.len())?;
    all.extend_from_slice(head)?;
    all.extend_from_slice(rest)?;
    Ok(all)
}

/// The whole reply to a call with this transaction number. Takes memory.
pub fn reply_text(alloc: Global, xid: u32, results: &Res<'_>) -> Result<Vec<u8>, NoMemory>
    ensures { IfOk result (λ v. v.items ≡ reply_text xid (results_of results.now)) }
{
    let body = res_text(alloc, results)?;
    match joined(alloc, &accepted_head(xid, SUCCESS), &body) {
        Ok(text) => Ok(text),
        Err(_) => Err(NoMemory),
    }
}
