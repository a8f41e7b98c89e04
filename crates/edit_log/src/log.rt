// The log's file. An edit is answered once it is durable.
ghost use Rattle.std.specs.Prelude.{◌≡◌, ◌≢◌, ◌+◌, ◌^◌, ◌-◌, ◌<◌, ◌≤◌, ◌⊎◌, ◌++◌, [], List, ℕ, min, length, take, IfOk, IfErr, OnOk, OnErr, IsErr, IsSome, IsErrOf, None, Some};
ghost use Rattle.gw_outside.specs.Causes.{HasCause, Rose};
ghost use Rattle.gw_outside.specs.Tally.{joined_tally};
ghost use Rattle.append_store.specs.State.{IsAway, Lent, Missing};
ghost use Rattle.edit_log.specs.Notes.{AreCounted, EndsAfter, IsOutside, Notes, done_calls};
ghost use Rattle.edit_log.specs.Log.{Holds, HoldsAfter, Puts, added_after, log_file};
ghost use Rattle.edit_log.specs.Edits.{header};
ghost use Rattle.edit_log.specs.declared.fault.StartFault.{StartFault};
ghost use Rattle.gw_model.specs.declared.object.ObjectId.{ObjectId};

use crate::reading::HEADER;
use crate::{LogFault, StartFault};
use append_store::{AppendFile, Cluster, CreateFault, StoreFault};
use gw_model::{ObjectId, Outcome, Trace};

// Adds bytes to a file, and makes all of it durable. The calls are noted.
fn put<F: AppendFile>(file: &mut F, bytes: &[u8], trace: &mut Trace) -> Result<(), StoreFault>
    requires { 2 ≤ trace.old.room }
    ensures puts { Puts F.tells bytes.now result
        (log_file F.content F.durable F.tally file.old) (log_file F.content F.durable F.tally file.new) trace.old trace.new }
    ensures room { trace.old.room ≤ trace.new.room + 2 }
    ensures mark { F.mark file.new ≡ F.mark file.old }
    ensures cause { HasCause (F.count file.old) (F.count file.new) result }
{
    if let Err(fault) = file.append(bytes) {
        trace.note(Outcome::Failed { kept: fault.kept });
        return Err(StoreFault);
    }
    trace.note(Outcome::Done);
    match file.hsync() {
        Ok(()) => {
            trace.note(Outcome::Done);
            Ok(())
        }
        Err(fault) => {
            trace.note(Outcome::Failed { kept: 0 });
            Err(fault)
        }
    }
}

/// The log of one generation. To it each edit of the tree is added.
#[derive(Drop)]
pub struct Log<F: AppendFile> {
    file: F,
    generation: u64,
    added: u64,
    failed: Option<u64>,
}

impl<F: AppendFile> Log<F> {
    /// Adds the text of an edit and makes it durable; the two calls are noted. After a failure it makes no call any more.
    /// Takes no memory.
    pub fn add(&mut self, text: &[u8], trace: &mut Trace) -> Result<(), LogFault>
        requires { 2 ≤ trace.old.room }
        ensures fault { IfErr result (λ e. self.new.failed ≡ Some e.after) }
        ensures ok { OnOk result (self.new.failed ≡ None) }
        ensures after { IfErr result (λ e. self.old.failed ≡ None → e.after ≡ self.old.added) }
        ensures added { self.new.added ≡ added_after result self.old.added }
        ensures generation { self.new.generation ≡ self.old.generation }
        ensures stays { IsSome self.old.failed → IsErr result × (self.new ≡ self.old) × (trace.new ≡ trace.old) }
        ensures cause { OnErr result (IsSome self.old.failed ⊎ Rose (F.count self.old.file) (F.count self.new.file)) }
        ensures later { F.count self.old.file ≤ F.count self.new.file }
        ensures mark { F.mark self.new.file ≡ F.mark self.old.file }
        ensures room { trace.old.room ≤ trace.new.room + 2 }
        ensures puts { self.old.failed ≡ None → Puts F.tells text.now result
            (log_file F.content F.durable F.tally self.old.file) (log_file F.content F.durable F.tally self.new.file) trace.old trace.new }

        // What was answered before is durable all the time, and what is answered now is.
        ensures durable { F.tells → F.durable self.old.file ≤ F.durable self.new.file }
        ensures holds { F.tells → (answered : List ℕ) → self.old.failed ≡ None
            → Holds (F.content self.old.file) (F.durable self.old.file) self.old.failed answered []
            → HoldsAfter result (F.content self.new.file) (F.durable self.new.file) self.new.failed answered text.now }
    {
        if let Some(after) = self.failed {
            return Err(LogFault { after });
        }
        let after = self.added;
        if put(&mut self.file, text, trace).is_err() {
            self.failed = Some(after);
            return Err(LogFault { after });
        }
        self.added = self.added.saturating_add(1);
        Ok(())
    }

    /// Begins the log of a generation that has none: makes it, and makes its header durable. Where that fails the log's file is
    /// given back. The calls are noted. Takes memory.
    pub(crate) fn begin<C: Cluster<File = F>>(
        cluster: &mut C,
        generation: u64,
        trace: &mut Trace,
    ) -> Result<Log<F>, StartFault>
        requires { F.tells → C.at cluster.old (ObjectId.Log generation) ≡ Missing }
        ensures generation { IfOk result (λ log. log.generation ≡ generation) }
        ensures fresh { IfOk result (λ log. log.failed ≡ None) }
        ensures none { IfOk result (λ log. log.added ≡ 0) }
        ensures holds { IfOk result (λ log. F.tells → Holds (F.content log.file) (F.durable log.file) None header []) }
        ensures out { IfOk result (λ log. F.tells → C.at cluster.new (ObjectId.Log generation) ≡ Lent (F.mark log.file)) }
        ensures back { OnErr result (F.tells → IsAway (C.at cluster.new (ObjectId.Log generation)) → ⊥) }
        ensures others { F.tells → (q : ObjectId) → q ≢ ObjectId.Log generation → C.at cluster.new q ≡ C.at cluster.old q }
        ensures outside { IfErr result IsOutside }
        ensures later { C.count cluster.old ≤ C.count cluster.new }
        ensures cause { IsErrOf result StartFault.Store → Rose (C.count cluster.old) (C.count cluster.new) }
        ensures ok_counted { IfOk result (λ log. AreCounted trace.old trace.new
            (C.tally cluster.old) (joined_tally (C.tally cluster.new) (F.tally log.file))) }
        ensures err_counted { OnErr result (AreCounted trace.old trace.new (C.tally cluster.old) (C.tally cluster.new)) }
        ensures ok_notes { OnOk result (Notes trace.old trace.new (done_calls 4)) }
        ensures err_notes { IfErr result (λ e. (kept : ℕ) × EndsAfter 3 kept e trace.old trace.new) }
    {
        if trace.reserve(4).is_err() {
            return Err(StartFault::Memory);
        }
        let object = ObjectId::Log { generation };
        match cluster.create(object) {
            Ok(()) => trace.note(Outcome::Done),
            Err(CreateFault::Fault) => {
                trace.note(Outcome::Failed { kept: 0 });
                return Err(StartFault::Store);
            }
            Err(CreateFault::Memory) => return Err(StartFault::Memory),
        }
        let Ok(mut file) = cluster.take_file(object) else {
            trace.note(Outcome::Failed { kept: 0 });
            return Err(StartFault::Store);
        };
        trace.note(Outcome::Done);
        if put(&mut file, HEADER, trace).is_err() {
            cluster.give_file(object, file);
            return Err(StartFault::Store);
        }
        Ok(Log {
            file,
            generation,
            added: 0,
            failed: None,
        })
    }

    /// The number of edits that were added before the one that failed. None where none did.
    pub fn failed(&self) -> Option<u64>
        ensures { result ≡ self.now.failed }
    {
        self.failed
    }

    /// Which start of the gateway this log is of.
    pub fn generation(&self) -> u64
        ensures { result ≡ self.now.generation }
    {
        self.generation
    }

    /// The log's file, which is the caller's to give back.
    pub fn into_file(self) -> F
        ensures { result ≡ self.file }
    {
        self.file
    }
}
