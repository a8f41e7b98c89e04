// What a call that changes names or attributes is answered.
ghost use Rattle.std.specs.Prelude.{◌≡◌, ◌≤◌, ℕ, true, IfOk, OnOk, Some, None};
ghost use Rattle.std.specs.Option.{option_map};
ghost use Rattle.gw_model.specs.Statuses as status;
ghost use Rattle.gw_model.specs.declared.FileId.{FileId};
ghost use Rattle.nfs_wire.specs.Views.{results_of};
ghost use Rattle.name_tree.specs.Seen.{IsReserved};
ghost use Rattle.name_tree.specs.Tree.{Tree as Plain};
ghost use Rattle.dup_cache.specs.CallList.{call_key, reply_for, with_used};
ghost use Rattle.name_changes.specs.Asks.{unsupported_refusal};
ghost use Rattle.name_changes.specs.Changes.{reply_by};
ghost use Rattle.name_changes.specs.Answers.{Alters, Tells, asked, asked_changing, asked_first, asked_unsupported, changed_results, file_in, refused_results};
ghost use Rattle.name_changes.specs.Answers.{removed_by, reply_text};
ghost use Rattle.name_changes.specs.Answered.{Answers, IsPrepared, KeepsAnswer, KeepsNew, ending_of, removed_if};
ghost use Rattle.name_changes.specs.Stores.{IsStored, log_seen, store_seen};

use crate::change::{Changed, FileSystem, ReadyEdit, Replies, make_change};
use crate::reply::{changed_results, refused_results, reply_text, results_or, same_outcome};
use crate::request::{is_changing, judge_change, unsupported_refusal};
use append_store::Cluster;
use dup_cache::{Calls, key_of};
use edit_log::Log;
use gw_model::status::NFS3ERR_IO;
use gw_model::{FileId, NoMemory, Trace};
use name_tree::{Edit, Judged, Refused, Tree};
use nfs_types::FileType;
use nfs_wire::{Args, Res};
use rpc_msg::{Call, Caller};
use std::alloc::Global;

/// How many calls a change makes on the store and on the log's file, at most.
const NOTES: usize = 3;

/// What a call was answered.
#[derive(Drop)]
pub struct NameDone {
    /// The whole reply.
    pub text: Vec<u8>,
    /// The regular file that left the tree. What is open of it is stale, and its body is to be deleted before the reply is sent.
    pub removed: Option<FileId>,
    /// How the change ended, where there was one to be made.
    pub ending: Option<Changed>,
}

fn file_in(tree: &Tree, file: Option<FileId>) -> Option<FileId>
    ensures { option_map (λ (f : FileId). f.0) result ≡ file_in tree.now.tree (option_map (λ (f : FileId). f.0) file) }
{
    let Some(file) = file else {
        return None;
    };
    match tree.attr(file) {
        Some(attr) => {
            if matches!(attr.kind, FileType::Regular) {
                Some(file)
            } else {
                None
            }
        }
        None => None,
    }
}

// The regular file that an edit takes out of the tree.
fn removed_by(tree: &Tree, edit: &Edit) -> Option<FileId>
    ensures { option_map (λ (f : FileId). f.0) result ≡ removed_by tree.now.tree edit.now }
{
    match edit {
        Edit::Remove { parent, name } => file_in(tree, tree.child(FileId(*parent), name.bytes())),
        Edit::Rename {
            to_parent,
            to_name,
            ..
        } => file_in(tree, tree.child(FileId(*to_parent), to_name.bytes())),
        Edit::Make { .. } | Edit::Set { .. } => None,
    }
}

// The reply that a call had, where it was answered before; it becomes the last used. Takes memory.
fn kept_reply(alloc: Global, calls: &mut Calls, key: &[u8]) -> Result<Option<Vec<u8>>, NoMemory>
    ensures used { calls.new ≡ with_used key.now calls.old }
    ensures reply { IfOk result (λ r. option_map (λ v. v.items) r ≡ reply_for key.now calls.old) }
{
    match calls.look(key) {
        Some(reply) => match Vec::from_slice(alloc, reply) {
            Ok(text) => Ok(Some(text)),
            Err(_) => Err(NoMemory),
        },
        None => Ok(None),
    }
}

// A call of a changing procedure.
#[derive(Drop)]
struct NameCall<'a> {
    key: &'a [u8],
    xid: u32,
    args: &'a Args,
    /// In milliseconds.
    moment: u64,
}

// Tells results, and keeps the reply. Takes memory.
#[tactic(auto, using(crate::proofs::ToldChanges::told_results))]
fn tell(
    alloc: Global,
    calls: &mut Calls,
    call: &NameCall<'_>,
    results: &Res<'_>,
) -> Result<Option<NameDone>, NoMemory>
    ensures answer { (fsid : ℕ) (t : Plain) → Answers call.now.xid call.now.args.now fsid call.now.moment t t
        (Some (Tells true (results_of results.now))) result }
    ensures kept { KeepsNew call.now.key.now result calls.old calls.new }
    ensures ending { ending_of result ≡ None }
{
    let Ok(text) = reply_text(alloc, call.xid, results) else {
        return Err(NoMemory);
    };
    if calls.begin(alloc, call.key, text.len()).is_err() {
        return Err(NoMemory);
    }
    calls.fill(call.key, &text);
    Ok(Some(NameDone {
        text,
        removed: None,
        ending: None,
    }))
}

// The replies to a call with this transaction number: the one for an edit that is done, and the one for a store that failed.
// Takes memory.
fn replies_of(
    alloc: Global,
    xid: u32,
    args: &Args,
    fsid: u64,
    ready: &ReadyEdit,
) -> Result<Replies, NoMemory>
    ensures done { IfOk result (λ r. r.done.items ≡ reply_text xid (changed_results args.now fsid ready.now.moment ready.now.edit)) }
    ensures io { IfOk result (λ r. r.io.items ≡ reply_text xid (refused_results args.now status.io)) }
{
    let results = changed_results(args, fsid, ready.moment, &ready.edit);
    let done = reply_text(alloc, xid, &results)?;
    let io = reply_text(alloc, xid, &refused_results(args, NFS3ERR_IO))?;
    Ok(Replies { done, io })
}

// What is told once a change has ended.
fn ended(ending: Changed, replies: Replies, removed: Option<FileId>) -> NameDone
    ensures text { result.text.items ≡ reply_by ending replies }
    ensures removed { result.removed ≡ removed_if ending removed }
    ensures ending { result.ending ≡ Some ending }
{
    match ending {
        Changed::Durable => NameDone {
            text: replies.done,
            removed,
            ending: Some(ending),
        },
        Changed::Failed => NameDone {
            text: replies.io,
            removed: None,
            ending: Some(ending),
        },
    }
}

// A change for which all memory was taken but the last.
#[derive(Drop)]
struct Prepared {
    ready: ReadyEdit,
    replies: Replies,
    removed: Option<FileId>,
}

// Takes the memory for an edit, its replies and the notes of its calls.
fn prepare(
    alloc: Global,
    tree: &mut Tree,
    fsid: u64,
    call: &NameCall<'_>,
    edit: Edit,
    trace: &mut Trace,
) -> Result<Prepared, NoMemory>
    ensures tree { tree.new.tree ≡ tree.old.tree }
    ensures edit { IfOk result (λ p. p.ready.edit ≡ edit) }
    ensures prepared { IfOk result (λ p. IsPrepared call.now.xid call.now.args.now fsid call.now.moment tree.old.tree p.ready.edit
        p.ready.moment p.ready.text.items p.replies (option_map (λ (f : FileId). f.0) p.removed)) }
    ensures reserved { IfOk result (λ p. IsReserved p.ready.edit tree.new) }
    ensures room { OnOk result (3 ≤ trace.new.room) }
    ensures notes { trace.new.outcomes ≡ trace.old.outcomes }
{
    trace.reserve(NOTES)?;
    let removed = removed_by(tree, &edit);
    let ready = ReadyEdit::of(alloc, tree, edit, call.moment)?;
    let replies = replies_of(alloc, call.xid, call.args, fsid, &ready)?;
    Ok(Prepared {
        ready,
        replies,
        removed,
    })
}

// Makes a change, and gives what is told of it. Takes memory.
fn alter_prepared<C: Cluster>(
    alloc: Global,
    system: &mut FileSystem,
    log: &mut Log<C::File>,
    cluster: &mut C,
    call: &NameCall<'_>,
    prepared: Prepared,
    trace: &mut Trace,
) -> Result<Option<NameDone>, NoMemory>
    requires prepared { IsPrepared call.now.xid call.now.args.now system.old.fsid call.now.moment system.old.tree.tree
        prepared.ready.edit prepared.ready.moment prepared.ready.text.items prepared.replies
        (option_map (λ (f : FileId). f.0) prepared.removed) }
    requires reserved { IsReserved prepared.ready.edit system.old.tree }
    requires room { 3 ≤ trace.old.room }
    ensures answer { Answers call.now.xid call.now.args.now system.old.fsid call.now.moment system.old.tree.tree system.new.tree.tree
        (Some (Alters prepared.ready.edit)) result }
    ensures kept { KeepsNew call.now.key.now result system.old.calls system.new.calls }
    ensures settings { (system.new.fsid ≡ system.old.fsid) × (system.new.read_only ≡ system.old.read_only) }
    ensures store { IsStored C.File.tells (Some (Alters prepared.ready.edit)) (ending_of result)
        (store_seen C.Cluster cluster.old) (store_seen C.Cluster cluster.new)
        (log_seen C.File.AppendFile log.old.file log.old.failed log.old.generation)
        (log_seen C.File.AppendFile log.new.file log.new.failed log.new.generation) trace.old trace.new }
{
    let Prepared {
        ready,
        replies,
        removed,
    } = prepared;
    match make_change(
        alloc, system, log, cluster, call.key, &ready, &replies, trace,
    ) {
        Ok(ending) => Ok(Some(ended(ending, replies, removed))),
        Err(_) => Err(NoMemory),
    }
}

// Makes the change that an edit is. Takes memory.
#[tactic(auto, using(crate::proofs::ToldChanges::answers_as, crate::proofs::StoredChanges::stored_as, crate::proofs::StoredChanges::untouched))]
fn alter<C: Cluster>(
    alloc: Global,
    system: &mut FileSystem,
    log: &mut Log<C::File>,
    cluster: &mut C,
    call: &NameCall<'_>,
    edit: Edit,
    trace: &mut Trace,
) -> Result<Option<NameDone>, NoMemory>
    ensures answer { Answers call.now.xid call.now.args.now system.old.fsid call.now.moment system.old.tree.tree system.new.tree.tree
        (Some (Alters edit)) result }
    ensures kept { KeepsNew call.now.key.now result system.old.calls system.new.calls }
    ensures settings { (system.new.fsid ≡ system.old.fsid) × (system.new.read_only ≡ system.old.read_only) }
    ensures store { IsStored C.File.tells (Some (Alters edit)) (ending_of result)
        (store_seen C.Cluster cluster.old) (store_seen C.Cluster cluster.new)
        (log_seen C.File.AppendFile log.old.file log.old.failed log.old.generation)
        (log_seen C.File.AppendFile log.new.file log.new.failed log.new.generation) trace.old trace.new }
{
    match prepare(alloc, &mut system.tree, system.fsid, call, edit, trace) {
        Ok(prepared) => alter_prepared(alloc, system, log, cluster, call, prepared, trace),
        Err(_) => Err(NoMemory),
    }
}

// Answers a call that wasn't answered before. Takes memory.
#[tactic(auto, using(crate::proofs::StoredChanges::untouched))]
fn answer_new<C: Cluster>(
    alloc: Global,
    system: &mut FileSystem,
    log: &mut Log<C::File>,
    cluster: &mut C,
    caller: &Caller,
    call: &NameCall<'_>,
    trace: &mut Trace,
) -> Result<Option<NameDone>, NoMemory>
    requires { caller.now.gid_count ≤ 16 }
    ensures answer { Answers call.now.xid call.now.args.now system.old.fsid call.now.moment system.old.tree.tree system.new.tree.tree
        (asked_first system.old caller.now call.now.moment call.now.args.now) result }
    ensures kept { KeepsNew call.now.key.now result system.old.calls system.new.calls }
    ensures settings { (system.new.fsid ≡ system.old.fsid) × (system.new.read_only ≡ system.old.read_only) }
    ensures store { IsStored C.File.tells (asked_first system.old caller.now call.now.moment call.now.args.now) (ending_of result)
        (store_seen C.Cluster cluster.old) (store_seen C.Cluster cluster.new)
        (log_seen C.File.AppendFile log.old.file log.old.failed log.old.generation)
        (log_seen C.File.AppendFile log.new.file log.new.failed log.new.generation) trace.old trace.new }
{
    match judge_change(
        &system.tree,
        system.fsid,
        caller,
        system.read_only,
        call.moment,
        call.args,
    ) {
        Ok(Judged::Change(edit)) => alter(alloc, system, log, cluster, call, edit, trace),
        Ok(Judged::Same(file)) => {
            let outcome = same_outcome(call.args, &system.tree, system.fsid, file);
            tell(
                alloc,
                &mut system.calls,
                call,
                &results_or(call.args, outcome),
            )
        }
        Err(Refused::Status(status)) => {
            tell(
                alloc,
                &mut system.calls,
                call,
                &refused_results(call.args, status),
            )
        }
        Err(Refused::Memory) => Err(NoMemory),
    }
}

// Refuses MKNOD and LINK, whose replies aren't kept; `None` for a procedure that changes nothing. Takes memory.
fn unsupported(
    alloc: Global,
    tree: &Tree,
    fsid: u64,
    xid: u32,
    args: &Args,
) -> Result<Option<NameDone>, NoMemory>
    ensures answer { (moment : ℕ) → Answers xid args.now fsid moment tree.now.tree tree.now.tree
        (asked_unsupported args.now (unsupported_refusal tree.now.tree fsid args.now)) result }
    ensures ending { ending_of result ≡ None }
{
    let Some(status) = unsupported_refusal(tree, fsid, args) else {
        return Ok(None);
    };
    let text = reply_text(alloc, xid, &refused_results(args, status))?;
    Ok(Some(NameDone {
        text,
        removed: None,
        ending: None,
    }))
}

// Answers a call of a changing procedure: with the reply that it had, where it had one. Takes memory.
#[tactic(auto, using(crate::proofs::ToldChanges::told_again, crate::proofs::ToldChanges::keeps_answer, crate::proofs::StoredChanges::untouched))]
fn answer_changing<C: Cluster>(
    alloc: Global,
    system: &mut FileSystem,
    log: &mut Log<C::File>,
    cluster: &mut C,
    caller: &Caller,
    call: &NameCall<'_>,
    trace: &mut Trace,
) -> Result<Option<NameDone>, NoMemory>
    requires { caller.now.gid_count ≤ 16 }
    ensures answer { Answers call.now.xid call.now.args.now system.old.fsid call.now.moment system.old.tree.tree system.new.tree.tree
        (asked_changing system.old caller.now call.now.key.now call.now.moment call.now.args.now) result }
    ensures kept { KeepsAnswer (asked_changing system.old caller.now call.now.key.now call.now.moment call.now.args.now)
        call.now.key.now result system.old.calls system.new.calls }
    ensures settings { (system.new.fsid ≡ system.old.fsid) × (system.new.read_only ≡ system.old.read_only) }
    ensures store { IsStored C.File.tells (asked_changing system.old caller.now call.now.key.now call.now.moment call.now.args.now)
        (ending_of result)
        (store_seen C.Cluster cluster.old) (store_seen C.Cluster cluster.new)
        (log_seen C.File.AppendFile log.old.file log.old.failed log.old.generation)
        (log_seen C.File.AppendFile log.new.file log.new.failed log.new.generation) trace.old trace.new }
{
    match kept_reply(alloc, &mut system.calls, call.key) {
        Ok(kept) => match kept {
            Some(text) => Ok(Some(again(text))),
            None => answer_new(alloc, system, log, cluster, caller, call, trace),
        },
        Err(_) => Err(NoMemory),
    }
}

fn again(text: Vec<u8>) -> NameDone
    ensures { result ≡ record { text = text; removed = None; ending = None } }
{
    NameDone {
        text,
        removed: None,
        ending: None,
    }
}

/// Answers a call that changes names or attributes, at a moment in milliseconds: SETATTR, CREATE, MKDIR, SYMLINK, MKNOD, REMOVE,
/// RMDIR, RENAME and LINK (RFC 1813 sections 3.3.2 and 3.3.8 to 3.3.15). `None` for the arguments of another procedure.
///
/// A call that was answered before has its reply again, and nothing is done. Else the first refusal of the procedure's order
/// decides. A change is answered once its edit is durable in the log, and the body of a new file is created before. NFS3ERR_IO
/// comes where the log or the store failed, in this call or, for the log, before. The reply is kept, but for MKNOD and LINK, which
/// aren't supported. Sizes of files are those that the tree was told. The calls on the store are noted.
///
/// `Err` is want of memory. It changes nothing, but that the call may have become the last used, and that the body of a new file
/// may be there, empty.
pub fn answer<C: Cluster>(
    alloc: Global,
    system: &mut FileSystem,
    log: &mut Log<C::File>,
    cluster: &mut C,
    client: u32,
    call: &Call,
    args: &Args,
    moment: u64,
    trace: &mut Trace,
) -> Result<Option<NameDone>, NoMemory>
    requires { call.now.caller.gid_count ≤ 16 }
    ensures answer { Answers call.now.xid args.now system.old.fsid moment system.old.tree.tree system.new.tree.tree
        (asked system.old client call.now moment args.now) result }
    ensures kept { KeepsAnswer (asked system.old client call.now moment args.now)
        (call_key client call.now.whole) result system.old.calls system.new.calls }
    ensures settings { (system.new.fsid ≡ system.old.fsid) × (system.new.read_only ≡ system.old.read_only) }
    ensures store { IsStored C.File.tells (asked system.old client call.now moment args.now) (ending_of result)
        (store_seen C.Cluster cluster.old) (store_seen C.Cluster cluster.new)
        (log_seen C.File.AppendFile log.old.file log.old.failed log.old.generation)
        (log_seen C.File.AppendFile log.new.file log.new.failed log.new.generation) trace.old trace.new }
{
    if !is_changing(args) {
        return unsupported(alloc, &system.tree, system.fsid, call.xid, args);
    }
    let Ok(key) = key_of(alloc, client, call.whole.as_slice()) else {
        return Err(NoMemory);
    };
    let asking = NameCall {
        key: &key,
        xid: call.xid,
        args,
        moment,
    };
    answer_changing(alloc, system, log, cluster, &call.caller, &asking, trace)
}
