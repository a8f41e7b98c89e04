// A change: all of its memory is taken first, then the log, the tree and the calls that were answered change.
ghost use Rattle.std.specs.Prelude.{◌≡◌, ◌≢◌, ◌+◌, ◌≤◌, ◌⊎◌, ℕ, List, [], length, true, false, IfOk, OnOk, OnErr, Some, None, IsSome};
ghost use Rattle.gw_outside.specs.Causes.{Rose};
ghost use Rattle.gw_model.specs.declared.object.ObjectId.{ObjectId};
ghost use Rattle.append_store.specs.Calls.{MayCreate};
ghost use Rattle.edit_log.specs.Edits.{edit_text};
ghost use Rattle.edit_log.specs.Log.{Holds};
ghost use Rattle.edit_log.specs.Notes.{AreCounted};
ghost use Rattle.name_tree.specs.Seen.{IsReserved};
ghost use Rattle.dup_cache.specs.CallList.{HasRoomFor, with_filled};
ghost use Rattle.name_changes.specs.declared.change.Changed.{Changed};
ghost use Rattle.name_changes.specs.Changes.{AreBothCounted, HasBody, HoldsBy, Keeps, new_body, reply_by, tree_by};

use append_store::{AppendFile, Cluster, CreateFault};
use dup_cache::Calls;
use edit_log::{Log, edit_text};
use gw_model::{NoMemory, ObjectId, Outcome, Trace};
use name_tree::{Edit, Tree};
use std::alloc::Global;

/// The names of a file system, and the calls that were answered.
#[derive(Drop)]
pub struct FileSystem {
    pub tree: Tree,
    pub calls: Calls,
    /// Its number, which stands in its handles and attributes.
    pub fsid: u64,
    /// Whether each change is refused.
    pub read_only: bool,
}

/// How a change ended.
#[derive(Clone, Copy, Debug, PartialEq, Eq)]
pub enum Changed {
    /// Its edit is durable, and done.
    Durable,
    /// The store or the log failed, and the tree is as it was.
    Failed,
}

/// An edit with its text, for which the tree has room.
#[derive(Drop)]
pub struct ReadyEdit {
    pub edit: Edit,
    pub text: Vec<u8>,
    /// When it is done, in milliseconds.
    pub moment: u64,
}

impl ReadyEdit {
    /// Takes the memory for an edit's text, and for what it adds to the tree.
    pub fn of(
        alloc: Global,
        tree: &mut Tree,
        edit: Edit,
        moment: u64,
    ) -> Result<ReadyEdit, NoMemory>
        ensures tree { tree.new.tree ≡ tree.old.tree }
        ensures edit { IfOk result (λ r. r.edit ≡ edit) }
        ensures moment { IfOk result (λ r. r.moment ≡ moment) }
        ensures text { IfOk result (λ r. r.text.items ≡ edit_text edit) }
        ensures room { OnOk result (IsReserved edit tree.new) }
    {
        let text = edit_text(alloc, &edit)?;
        tree.reserve(&edit)?;
        Ok(ReadyEdit { edit, text, moment })
    }
}

/// The replies to a call: the one for a change that is done, and the one for a store that failed.
#[derive(Drop)]
pub struct Replies {
    pub done: Vec<u8>,
    pub io: Vec<u8>,
}

fn new_body(edit: &Edit) -> Option<ObjectId>
    ensures { result ≡ new_body edit.now }
{
    match edit {
        Edit::Make { id, kind, .. } => {
            if *kind == 1 {
                Some(ObjectId::Body {
                    file: *id,
                    version: 1,
                })
            } else {
                None
            }
        }
        _ => None,
    }
}

// Creates the body of a new file, where there is one to be: false where the store failed. The call is noted. Takes memory.
fn make_body<C: Cluster>(
    cluster: &mut C,
    body: Option<ObjectId>,
    trace: &mut Trace,
) -> Result<bool, NoMemory>
    requires { 1 ≤ trace.old.room }
    ensures made { IfOk result (λ made. made ≡ true → C.File.tells → HasBody body (C.at cluster.old) (C.at cluster.new)) }
    ensures may { C.File.tells → (q : ObjectId) → MayCreate (C.at cluster.old q) (C.at cluster.new q) }
    ensures others { C.File.tells → (q : ObjectId) → body ≢ Some q → C.at cluster.new q ≡ C.at cluster.old q }
    ensures losses { C.File.tells → (q : ObjectId) → body ≢ Some q → C.losses cluster.new q ≡ C.losses cluster.old q }
    ensures later { C.count cluster.old ≤ C.count cluster.new }
    ensures cause { IfOk result (λ made. made ≡ false → Rose (C.count cluster.old) (C.count cluster.new)) }
    ensures counted { AreCounted trace.old trace.new (C.tally cluster.old) (C.tally cluster.new) }
    ensures room { trace.old.room ≤ trace.new.room + 1 }
{
    let Some(object) = body else {
        return Ok(true);
    };
    match cluster.create(object) {
        Ok(()) => {
            trace.note(Outcome::Done);
            Ok(true)
        }
        Err(CreateFault::Fault) => {
            trace.note(Outcome::Failed { kept: 0 });
            Ok(false)
        }
        Err(CreateFault::Memory) => Err(NoMemory),
    }
}

// Adds the edit to the log, and where that is done makes the change; the reply is kept. Takes no memory.
fn finish<F: AppendFile>(
    system: &mut FileSystem,
    log: &mut Log<F>,
    made: bool,
    key: &[u8],
    ready: &ReadyEdit,
    replies: &Replies,
    trace: &mut Trace,
) -> Changed
    requires reserved { IsReserved ready.now.edit system.old.tree }
    requires done { HasRoomFor key.now (length replies.now.done.items) system.old.calls }
    requires io { HasRoomFor key.now (length replies.now.io.items) system.old.calls }
    requires room { 2 ≤ trace.old.room }
    ensures made { result ≡ Changed.Durable → made ≡ true }
    ensures tree { system.new.tree.tree ≡ tree_by result ready.now.edit ready.now.moment system.old.tree.tree }
    ensures calls { system.new.calls ≡ with_filled key.now (reply_by result replies.now) system.old.calls }
    ensures durable { F.tells → (answered : List ℕ) → log.old.failed ≡ None
        → Holds (F.content log.old.file) (F.durable log.old.file) None answered []
        → HoldsBy result (F.content log.new.file) (F.durable log.new.file) log.new.failed answered ready.now.text.items }
    ensures fails { result ≡ Changed.Failed → (log.new ≡ log.old) ⊎ IsSome log.new.failed }
    ensures cause { result ≡ Changed.Failed → (made ≡ false) ⊎ ((IsSome log.old.failed)
        ⊎ Rose (F.count log.old.file) (F.count log.new.file)) }
    ensures later { F.count log.old.file ≤ F.count log.new.file }
    ensures mark { F.mark log.new.file ≡ F.mark log.old.file }
    ensures generation { log.new.generation ≡ log.old.generation }
    ensures settings { (system.new.fsid ≡ system.old.fsid) × (system.new.read_only ≡ system.old.read_only) }
    ensures counted { AreCounted trace.old trace.new (F.tally log.old.file) (F.tally log.new.file) }
{
    if !made || log.add(&ready.text, trace).is_err() {
        system.calls.fill(key, &replies.io);
        return Changed::Failed;
    }
    system.tree.apply(&ready.edit, ready.moment);
    system.calls.fill(key, &replies.done);
    Changed::Durable
}

/// Makes a change. The body of a new file is created before the edit is added to the log, and the reply is kept under the key
/// once the edit is durable. Takes memory; where it is refused nothing has changed, but that the body may be there, empty.
pub fn make_change<C: Cluster>(
    alloc: Global,
    system: &mut FileSystem,
    log: &mut Log<C::File>,
    cluster: &mut C,
    key: &[u8],
    ready: &ReadyEdit,
    replies: &Replies,
    trace: &mut Trace,
) -> Result<Changed, NoMemory>
    requires reserved { IsReserved ready.now.edit system.old.tree }
    requires room { 3 ≤ trace.old.room }

    // Where memory is refused, nothing changes but that the body may be there.
    ensures tree_kept { OnErr result (system.new.tree.tree ≡ system.old.tree.tree) }
    ensures log_kept { OnErr result (log.new ≡ log.old) }
    ensures calls_kept { OnErr result (system.new.calls ≡ system.old.calls) }

    // The tree changes exactly where the edit is durable, and its reply is kept.
    ensures tree { IfOk result (λ r. system.new.tree.tree ≡ tree_by r ready.now.edit ready.now.moment system.old.tree.tree) }
    ensures calls { IfOk result (λ r. Keeps key.now (reply_by r replies.now) system.old.calls system.new.calls) }
    ensures durable { IfOk result (λ r. C.File.tells → (answered : List ℕ) → log.old.failed ≡ None
        → Holds (C.File.content log.old.file) (C.File.durable log.old.file) None answered []
        → HoldsBy r (C.File.content log.new.file) (C.File.durable log.new.file) log.new.failed answered ready.now.text.items) }
    ensures fails { IfOk result (λ r. r ≡ Changed.Failed → (log.new ≡ log.old) ⊎ IsSome log.new.failed) }
    ensures cause { IfOk result (λ r. r ≡ Changed.Failed → (Rose (C.count cluster.old) (C.count cluster.new)) ⊎ ((IsSome log.old.failed)
        ⊎ Rose (C.File.count log.old.file) (C.File.count log.new.file))) }

    // The body of a new file is there before its edit is.
    ensures made { IfOk result (λ r. r ≡ Changed.Durable → C.File.tells
        → HasBody (new_body ready.now.edit) (C.at cluster.old) (C.at cluster.new)) }
    ensures may { C.File.tells → (q : ObjectId) → MayCreate (C.at cluster.old q) (C.at cluster.new q) }
    ensures others { C.File.tells → (q : ObjectId) → new_body ready.now.edit ≢ Some q → C.at cluster.new q ≡ C.at cluster.old q }
    ensures mark { C.File.mark log.new.file ≡ C.File.mark log.old.file }
    ensures generation { log.new.generation ≡ log.old.generation }
    ensures later { C.count cluster.old ≤ C.count cluster.new }
    ensures log_later { C.File.count log.old.file ≤ C.File.count log.new.file }
    ensures settings { (system.new.fsid ≡ system.old.fsid) × (system.new.read_only ≡ system.old.read_only) }
    ensures counted { AreBothCounted trace.old trace.new (C.tally cluster.old) (C.tally cluster.new)
        (C.File.tally log.old.file) (C.File.tally log.new.file) }
{
    let made = match log.failed() {
        Some(_) => false,
        None => make_body(cluster, new_body(&ready.edit), trace)?,
    };
    let room = replies.done.len().max(replies.io.len());
    system.calls.begin(alloc, key, room)?;

    // From here on no memory is taken.
    Ok(finish(system, log, made, key, ready, replies, trace))
}
