// What a call is answered.
ghost use Rattle.std.specs.Prelude.{◌≡◌, ◌≤◌, OnOk, OnErr};
ghost use Rattle.dup_cache.specs.CallList.{call_key};
ghost use Rattle.name_changes.specs.Answered.{Answers, KeepsAnswer, ending_of};
ghost use Rattle.name_changes.specs.Stores.{IsStored, log_seen, store_seen};
ghost use Rattle.name_calls.specs.FrontAnswers.{front_asked, mounts_after};

use crate::Front;
use crate::mounts::change_mounts;
use crate::told::{told_text, with_head};
use append_store::Cluster;
use edit_log::Log;
use gw_model::{NoMemory, Trace};
use name_changes::NameDone;
use nfs_wire::Args;
use rpc_msg::Call;
use std::alloc::Global;

/// Answers a call at a moment in milliseconds: NULL and each other procedure of NFS version 3 but READ, WRITE and COMMIT, and all
/// of MOUNT version 3 (RFC 1813 sections 3.3 and 5.2). `None` for the arguments of READ, WRITE and COMMIT.
///
/// A procedure that changes names or attributes is answered as `name_changes::answer` has it: its reply is kept, a call that comes
/// again has that reply, and NFS3ERR_IO comes where the log or the store failed. The replies of the others aren't kept. They
/// change nothing but the mount list: a MNT that isn't refused lists the caller's machine with the path, and UMNT and UMNTALL
/// take out. The calls on the store are noted.
///
/// `Err` is want of memory. It changes nothing, but that the call may have become the last used, and that the body of a new file
/// may be there, empty.
pub fn answer<C: Cluster>(
    alloc: Global,
    front: &mut Front,
    log: &mut Log<C::File>,
    cluster: &mut C,
    client: u32,
    call: &Call,
    args: &Args,
    moment: u64,
    trace: &mut Trace,
) -> Result<Option<NameDone>, NoMemory>
    requires { call.now.caller.gid_count ≤ 16 }
    ensures answer { Answers call.now.xid args.now front.old.names.fsid moment front.old.names.tree.tree front.new.names.tree.tree
        (front_asked front.old client call.now moment args.now) result }
    ensures kept { KeepsAnswer (front_asked front.old client call.now moment args.now)
        (call_key client call.now.whole) result front.old.names.calls front.new.names.calls }
    ensures mounts { OnOk result (front.new.mounts ≡ mounts_after front.old call.now args.now) }
    ensures memory { OnErr result (front.new.mounts ≡ front.old.mounts) }
    ensures export { front.new.export ≡ front.old.export }
    ensures settings { (front.new.names.fsid ≡ front.old.names.fsid) × (front.new.names.read_only ≡ front.old.names.read_only) }
    ensures store { IsStored C.File.tells (front_asked front.old client call.now moment args.now) (ending_of result)
        (store_seen C.Cluster cluster.old) (store_seen C.Cluster cluster.new)
        (log_seen C.File.AppendFile log.old.file log.old.failed log.old.generation)
        (log_seen C.File.AppendFile log.new.file log.new.failed log.new.generation) trace.old trace.new }
{
    match told_text(alloc, front, call, args) {
        Ok(Some(results)) => match with_head(alloc, call.xid, &results) {
            Ok(text) => match change_mounts(
                &mut front.mounts,
                &front.names.tree,
                &front.export,
                &call.host,
                args,
            ) {
                Ok(()) => Ok(Some(NameDone {
                    text,
                    removed: None,
                    ending: None,
                })),
                Err(_) => Err(NoMemory),
            },
            Err(_) => Err(NoMemory),
        },
        Ok(None) => name_changes::answer(
            alloc,
            &mut front.names,
            log,
            cluster,
            client,
            call,
            args,
            moment,
            trace,
        ),
        Err(_) => Err(NoMemory),
    }
}
