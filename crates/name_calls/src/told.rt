// The replies of the procedures that change no names.
ghost use Rattle.std.specs.Prelude.{◌≡◌, ◌≤◌, ◌++◌, Some, IfOk};
ghost use Rattle.std.specs.Option.{option_map};
ghost use Rattle.xdr.specs.Rows.{text};
ghost use Rattle.rpc_msg.specs.Numbers.{success};
ghost use Rattle.rpc_msg.specs.Replies.{accepted_text};
ghost use Rattle.nfs_wire.specs.Results.{results_row};
ghost use Rattle.nfs_wire.specs.Views.{results_of};
ghost use Rattle.name_queries.specs.Outcomes.{results_text};
ghost use Rattle.name_calls.specs.FrontAnswers.{front_results, mnt_of, mnt_results};

use crate::Front;
use gw_model::NoMemory;
use handles::handle_of;
use mount_proc::export_text;
use nfs_wire::{Args, Res, res_text};
use rpc_msg::numbers::SUCCESS;
use rpc_msg::{Call, accepted_head};
use std::alloc::{AllocError, Global};

fn some_text(alloc: Global, results: &Res<'_>) -> Result<Option<Vec<u8>>, NoMemory>
    ensures { IfOk result (λ r. option_map (λ v. v.items) r ≡ Some (text (results_row (results_of results.now)))) }
{
    match res_text(alloc, results) {
        Ok(text) => Ok(Some(text)),
        Err(_) => Err(NoMemory),
    }
}

// MNT (RFC 1813 section 5.2.1): the handle of the directory that a path names, or its refusal.
fn mnt_results(front: &Front, call: &Call, path: &[u8]) -> Res<'static>
    ensures { results_of result ≡ mnt_results front.now.names.fsid (mnt_of front.now call.now path.now) }
{
    match front
        .mounts
        .judge(&front.names.tree, &front.export, &call.host, path)
    {
        Ok(dir) => Res::Mnt {
            handle: handle_of(dir, front.names.fsid),
        },
        Err(status) => Res::Refused { status, zeros: 0 },
    }
}

/// The results of a procedure that changes no names; `None` for another. Takes memory.
#[tactic(auto, unfolding(crate::specs::FrontAnswers::front_results))]
pub fn told_text(
    alloc: Global,
    front: &Front,
    call: &Call,
    args: &Args,
) -> Result<Option<Vec<u8>>, NoMemory>
    requires { call.now.caller.gid_count ≤ 16 }
    ensures { IfOk result (λ r. option_map (λ v. v.items) r ≡ results_text (front_results front.now call.now args.now)) }
{
    match args {
        Args::Null => some_text(alloc, &Res::Null),
        Args::MountNull => some_text(alloc, &Res::MountNull),
        Args::Dump => match front.mounts.dump() {
            Ok(text) => Ok(Some(text)),
            Err(_) => Err(NoMemory),
        },
        Args::Mnt { path } => some_text(alloc, &mnt_results(front, call, path)),
        Args::Umnt { .. } => some_text(alloc, &Res::Umnt),
        Args::Umntall => some_text(alloc, &Res::Umntall),
        Args::Export => match export_text(alloc, &front.export) {
            Ok(text) => Ok(Some(text)),
            Err(_) => Err(NoMemory),
        },
        _ => name_queries::answer(
            alloc,
            &front.names.tree,
            front.names.fsid,
            &call.caller,
            args,
        ),
    }
}

fn joined(alloc: Global, head: &[u8], rest: &[u8]) -> Result<Vec<u8>, AllocError>
    ensures { IfOk result (λ v. v.items ≡ head.now ++ rest.now) }
{
    let mut all = Vec::with_capacity(alloc, head.len() + rest.len())?;
    all.extend_from_slice(head)?;
    all.extend_from_slice(rest)?;
    Ok(all)
}

/// The whole reply to a call with this transaction number, with these results. Takes memory.
pub fn with_head(alloc: Global, xid: u32, results: &[u8]) -> Result<Vec<u8>, NoMemory>
    ensures { IfOk result (λ v. v.items ≡ accepted_text xid success ++ results.now) }
{
    match joined(alloc, &accepted_head(xid, SUCCESS), results) {
        Ok(text) => Ok(text),
        Err(_) => Err(NoMemory),
    }
}
