// A start of the log over what a store holds.
ghost use Rattle.std.specs.Prelude.{◌≡◌, ◌≢◌, ◌⊎◌, ◌∷◌, ◌+◌, ◌<◌, ◌≤◌, ◌&&◌, not, is_none, ℕ, List, [], length, OnOk, IfOk, IfErr, OnErr, IsErrOf, None, Ok};
ghost use Rattle.std.specs.List.{AllByRecursion};
ghost use Rattle.std.specs.Map.{lookup};
ghost use Rattle.std.specs.BTreeMap.{is_at};
ghost use Rattle.std.specs.Ordering.{nat_cmp};
ghost use Rattle.gw_outside.specs.Causes.{Rose};
ghost use Rattle.gw_outside.specs.Tally.{joined_tally};
ghost use Rattle.gw_model.specs.declared.object.ObjectId.{ObjectId};
ghost use Rattle.gw_model.specs.declared.object.KeptObject.{KeptObject};
ghost use Rattle.append_store.specs.State.{IsAway, IsThere, Lent};
ghost use Rattle.append_store.specs.Calls.{HasLength, Lists, IsRising};
ghost use Rattle.gw_model.specs.Ahead as note;
ghost use Rattle.edit_log.specs.Log.{Holds};
ghost use Rattle.edit_log.specs.Edits.{header};
ghost use Rattle.edit_log.specs.Notes.{AreCounted, EndsAfter, IsOutside, Notes, done_calls, reads_in, read_count};
ghost use Rattle.edit_log.specs.Start.{DoesLogs, Finds, Refuses, StartNotes, Starts, StopNotes, has_body, is_body_of, tree_with_body, greater_generation, last_generation, log_in, logs_of, tree_after_logs, tree_with_bodies, start_result, tree_with_length};
ghost use Rattle.edit_log.specs.declared.fault.StartFault.{StartFault};

use crate::fetching::fetch;
use crate::reading::EditFault;
use crate::replaying::replay;
use crate::{Log, StartFault};
use append_store::{AppendFile, Cluster, ListFault};
use gw_model::{FileId, KeptObject, ObjectId, Outcome, Trace};
use name_tree::Tree;
use nfs_types::FileType;
use std::alloc::{AllocError, Global};
use std::collections::BTreeMap;

// Does the edits of a log. A body is passed over. Takes memory.
fn read_one<C: Cluster>(
    alloc: Global,
    cluster: &mut C,
    kept: KeptObject,
    last: u64,
    tree: &mut Tree,
    trace: &mut Trace,
) -> Result<u64, StartFault>
    requires there { C.File.tells → HasLength (C.at cluster.old kept.object) kept.length }
    ensures tree { C.File.tells → DoesLogs result tree.new.tree
        (tree_after_logs (log_in kept.object (C.at cluster.old kept.object) []) tree.old.tree) }
    ensures last { IfOk result (λ n. n ≡ greater_generation last kept.object) }
    ensures same { C.File.tells → (q : ObjectId) → C.at cluster.new q ≡ C.at cluster.old q }
    ensures later { C.count cluster.old ≤ C.count cluster.new }
    ensures cause { IsErrOf result StartFault.Store → Rose (C.count cluster.old) (C.count cluster.new) }
    ensures counted { AreCounted trace.old trace.new (C.tally cluster.old) (C.tally cluster.new) }
    ensures ok_notes { OnOk result (Notes trace.old trace.new (done_calls (reads_in kept.object kept.length))) }
    ensures err_notes { IfErr result (λ e. EndsAfter (reads_in kept.object kept.length) 0 e trace.old trace.new) }
{
    match kept.object {
        ObjectId::Log { generation } => {
            let bytes = match fetch(alloc, cluster, generation, kept.length, trace) {
                Ok(bytes) => bytes,
                Err(fault) => return Err(fault),
            };
            match replay(alloc, &bytes, tree) {
                Ok(()) => Ok(last.max(generation)),
                Err(EditFault::Damaged { place }) => Err(StartFault::Damaged { generation, place }),
                Err(EditFault::Memory) => Err(StartFault::Memory),
            }
        }
        ObjectId::Body { .. } => Ok(last),
    }
}

// Does the edits of all logs, and gives the last generation. Takes memory.
fn read_all<C: Cluster>(
    alloc: Global,
    cluster: &mut C,
    all: &[KeptObject],
    tree: &mut Tree,
    trace: &mut Trace,
) -> Result<u64, StartFault>
    requires there { C.File.tells → AllByRecursion (λ k. HasLength (C.at cluster.old k.object) k.length) all.now }
    ensures tree { C.File.tells → DoesLogs result tree.new.tree (tree_after_logs (logs_of (C.at cluster.old) all.now) tree.old.tree) }
    ensures last { IfOk result (λ n. n ≡ last_generation 0 all.now) }
    ensures same { C.File.tells → (q : ObjectId) → C.at cluster.new q ≡ C.at cluster.old q }
    ensures later { C.count cluster.old ≤ C.count cluster.new }
    ensures cause { IsErrOf result StartFault.Store → Rose (C.count cluster.old) (C.count cluster.new) }
    ensures counted { AreCounted trace.old trace.new (C.tally cluster.old) (C.tally cluster.new) }
    ensures ok_notes { OnOk result (Notes trace.old trace.new (done_calls (read_count all.now))) }
    ensures err_notes { IfErr result (λ e. EndsAfter (read_count all.now) 0 e trace.old trace.new) }
{
    let mut last = 0;
    for listed in all {
        last = match read_one(alloc, cluster, *listed, last, tree, trace) {
            Ok(last) => last,
            Err(fault) => return Err(fault),
        };
    }
    Ok(last)
}

// Adds an object to the files that have their bodies. Takes memory.
fn keep(bodies: &mut BTreeMap<u64, u64>, kept: KeptObject) -> Result<(), AllocError>
    ensures { OnOk result ((q : ℕ) → is_none (lookup (is_at (nat_cmp q)) bodies.new.entries) ≡
        (not (is_body_of q kept.object) && is_none (lookup (is_at (nat_cmp q)) bodies.old.entries))) }
{
    if let ObjectId::Body { file, version } = kept.object {
        if version == 1 {
            bodies.insert(file, kept.length)?;
        }
    }
    Ok(())
}

// The files that have their bodies. Takes memory.
fn bodies_of(alloc: Global, all: &[KeptObject]) -> Result<BTreeMap<u64, u64>, AllocError>
    ensures { IfOk result (λ bodies. (q : ℕ) → is_none (lookup (is_at (nat_cmp q)) bodies.entries) ≡ not (has_body all.now q)) }
{
    let mut bodies = BTreeMap::new(alloc);
    for kept in all {
        keep(&mut bodies, *kept)?;
    }
    Ok(bodies)
}

// Tells a file its size.
fn tell(tree: &mut Tree, file: u64, size: u64)
    ensures { tree.new.tree ≡ tree_with_length file size tree.old.tree }
{
    let is_file = match tree.attr(FileId(file)) {
        Some(attr) => matches!(attr.kind, FileType::Regular),
        None => false,
    };
    if is_file {
        tree.learn(FileId(file), size, None);
    }
}

// Tells the tree of a body.
fn tell_one(tree: &mut Tree, kept: KeptObject)
    ensures { tree.new.tree ≡ tree_with_body kept.object kept.length tree.old.tree }
{
    if let ObjectId::Body { file, version } = kept.object {
        if version == 1 {
            tree.pass_id(file);
            tell(tree, file, kept.length);
        }
    }
}

// Tells the tree of all bodies.
fn tell_all(tree: &mut Tree, all: &[KeptObject])
    ensures { tree.new.tree ≡ tree_with_bodies all.now tree.old.tree }
{
    for kept in all {
        tell_one(tree, *kept);
    }
}

// The next generation and the recovered tree, of what was listed. Takes memory.
#[tactic(auto, unfolding(crate::specs::Start::start_result))]
fn recover<C: Cluster>(
    alloc: Global,
    cluster: &mut C,
    all: &[KeptObject],
    trace: &mut Trace,
) -> Result<(u64, Tree), StartFault>
    requires there { C.File.tells → AllByRecursion (λ k. HasLength (C.at cluster.old k.object) k.length) all.now }
    ensures found { C.File.tells → Finds (λ r. (r.0, r.1.tree)) result (start_result (C.at cluster.old) all.now) }
    ensures next { IfOk result (λ r. r.0 ≡ last_generation 0 all.now + 1) }
    ensures same { C.File.tells → (q : ObjectId) → C.at cluster.new q ≡ C.at cluster.old q }
    ensures later { C.count cluster.old ≤ C.count cluster.new }
    ensures cause { IsErrOf result StartFault.Store → Rose (C.count cluster.old) (C.count cluster.new) }
    ensures counted { AreCounted trace.old trace.new (C.tally cluster.old) (C.tally cluster.new) }
    ensures ok_notes { OnOk result (Notes trace.old trace.new (done_calls (read_count all.now))) }
    ensures err_notes { IfErr result (λ e. EndsAfter (read_count all.now) 0 e trace.old trace.new) }
{
    let mut tree = match Tree::new(alloc) {
        Ok(tree) => tree,
        Err(_) => return Err(StartFault::Memory),
    };
    let last = match read_all(alloc, cluster, all, &mut tree, trace) {
        Ok(last) => last,
        Err(fault) => return Err(fault),
    };
    let bodies = match bodies_of(alloc, all) {
        Ok(bodies) => bodies,
        Err(_) => return Err(StartFault::Memory),
    };
    if let Some(file) = tree.first_file_without(&bodies) {
        return Err(StartFault::MissingBody { file });
    }
    if last >= u64::MAX {
        return Err(StartFault::LastGeneration);
    }
    tell_all(&mut tree, all);
    Ok((last + 1, tree))
}

// Lists what a store has, keeps a copy of the list, and notes it. Takes memory.
fn look<C: Cluster>(
    alloc: Global,
    cluster: &mut C,
    trace: &mut Trace,
) -> Result<Vec<KeptObject>, StartFault>
    requires back { C.File.tells → (q : ObjectId) → IsAway (C.at cluster.old q) → ⊥ }
    ensures listed { IfOk result (λ all. C.File.tells → Lists (C.at cluster.old) all.items) }
    ensures rising { IfOk result (λ all. IsRising all.items) }
    ensures outside { IfErr result IsOutside }
    ensures same { C.File.tells → (q : ObjectId) → C.at cluster.new q ≡ C.at cluster.old q }
    ensures later { C.count cluster.old ≤ C.count cluster.new }
    ensures cause { IsErrOf result StartFault.Store → Rose (C.count cluster.old) (C.count cluster.new) }
    ensures counted { AreCounted trace.old trace.new (C.tally cluster.old) (C.tally cluster.new) }
    ensures ok_notes { IfOk result (λ all. Notes trace.old trace.new (note.Listed all.items ∷ [])) }
    ensures err_notes { IfErr result (λ e. StopNotes C.File.tells (C.at cluster.old) e trace.old trace.new) }
{
    if trace.reserve(1).is_err() {
        return Err(StartFault::Memory);
    }
    let listed = match cluster.list() {
        Ok(listed) => listed,
        Err(ListFault::Fault) => {
            trace.note(Outcome::Failed { kept: 0 });
            return Err(StartFault::Store);
        }
        Err(ListFault::Memory) => return Err(StartFault::Memory),
    };
    let copied = Vec::from_slice(alloc, &listed);
    trace.note(Outcome::Listed(listed));
    match copied {
        Ok(all) => Ok(all),
        Err(_) => Err(StartFault::Memory),
    }
}

impl<F: AppendFile> Log<F> {
    /// Starts the log of the next generation over what a store holds: the tree is that of the edits of the logs that are listed,
    /// done at moment 0. The calls are noted. Takes memory, for the notes too. The file of a log that can't be begun is given
    /// back.
    pub fn start<C: Cluster<File = F>>(
        alloc: Global,
        cluster: &mut C,
        trace: &mut Trace,
    ) -> Result<(Log<F>, Tree), StartFault>
        requires back { F.tells → (q : ObjectId) → IsAway (C.at cluster.old q) → ⊥ }
        ensures ok { IfOk result (λ r. F.tells → Starts (C.at cluster.old) (r.0.generation, r.1.tree)) }
        ensures greater { IfOk result (λ r. F.tells → (h : ℕ) → IsThere (C.at cluster.old (ObjectId.Log h)) → h < r.0.generation) }
        ensures holds { IfOk result (λ r. F.tells → Holds (F.content r.0.file) (F.durable r.0.file) r.0.failed header []) }
        ensures none { IfOk result (λ r. (r.0.failed ≡ None) × (r.0.added ≡ 0)) }
        ensures out { IfOk result (λ r. F.tells → C.at cluster.new (ObjectId.Log r.0.generation) ≡ Lent (F.mark r.0.file)) }
        ensures others { IfOk result (λ r. F.tells → (q : ObjectId) → q ≢ ObjectId.Log r.0.generation
            → C.at cluster.new q ≡ C.at cluster.old q) }
        ensures stops { IfErr result (λ e. F.tells → IsOutside e ⊎ Refuses (C.at cluster.old) e) }
        ensures given_back { OnErr result (F.tells → (q : ObjectId) → IsAway (C.at cluster.new q) → ⊥) }
        ensures later { C.count cluster.old ≤ C.count cluster.new }
        ensures cause { IsErrOf result StartFault.Store → Rose (C.count cluster.old) (C.count cluster.new) }
        ensures ok_counted { IfOk result (λ r. AreCounted trace.old trace.new
            (C.tally cluster.old) (joined_tally (C.tally cluster.new) (F.tally r.0.file))) }
        ensures err_counted { OnErr result (AreCounted trace.old trace.new (C.tally cluster.old) (C.tally cluster.new)) }
        ensures ok_notes { OnOk result (StartNotes F.tells (C.at cluster.old) trace.old trace.new) }
        ensures err_notes { IfErr result (λ e. StopNotes F.tells (C.at cluster.old) e trace.old trace.new) }
    {
        let all = match look(alloc, cluster, trace) {
            Ok(all) => all,
            Err(fault) => return Err(fault),
        };
        let (generation, tree) = match recover(alloc, cluster, &all, trace) {
            Ok(found) => found,
            Err(fault) => return Err(fault),
        };
        match Log::begin(cluster, generation, trace) {
            Ok(log) => Ok((log, tree)),
            Err(fault) => Err(fault),
        }
    }
}
