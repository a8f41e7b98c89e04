// A file in memory, which fails at the calls that it is told to fail at.
ghost use Rattle.std.specs.Prelude.{◌≡◌, ◌≤◌, ◌++◌, ◌-◌, [], ◌∷◌, length, min, take, drop};
ghost use Rattle.append_store.specs.Calls.{part_at};
ghost use Rattle.append_store.specs.Plan.{due_of};

use crate::{AppendFault, AppendFile, StoreFault};
use gw_model::ObjectId;
use gw_outside::Tally;
use std::alloc::Global;

/// A call that is to fail.
#[derive(Clone, Copy, Debug, PartialEq, Eq)]
pub struct Planned {
    /// The object whose calls are counted, or none for the calls on the store as a whole.
    pub object: Option<ObjectId>,
    /// The number of the call, from 1.
    pub call: u64,
    /// How many bytes an append keeps where it fails so, if its piece has as many.
    pub kept: u64,
}

/// A file in memory. The calls of its object that are planned to fail do so: `create`,
/// `take_file`, `append`, `hsync`, `read_at`, `read_closed` and `delete` are counted, from 1, and
/// the numbers go on from one taking to the next, and over a deletion and a crash.
#[derive(Drop)]
pub struct MemFile {
    object: ObjectId,
    bytes: Vec<u8>,
    durable: usize,
    plan: Vec<Planned>,
    calls: u64,
    planned: u64,
    starved: u64,
    tally: Tally,
    ghost within: { durable ≤ length bytes.items },
}

impl AppendFile for MemFile {
    ghost use Rattle.std.specs.Prelude.{IfOk, IfErr, OnOk, is_err};
    ghost use Rattle.gw_outside.specs.Causes.{HasCause};
    ghost use Rattle.gw_outside.specs.Tally.{one_call};
    ghost use Rattle.append_store.specs.Calls.{added_bytes};
    ghost use Rattle.append_store.specs.File.{FileAppendsAsPlanned, FileReadsAsPlanned, FileSyncsAsPlanned, file_count, file_state};

    ghost tells = { Unit {0} };

    ghost mark = { λ f. f.object ∷ [] };

    ghost content = { λ f. f.bytes.items };

    ghost durable = { λ f. f.durable };

    ghost count = { λ f. file_count (file_state f) };

    ghost tally = { λ f. f.tally };

    ghost durable_within = { λ f told. f.within };

    fn append(&mut self, bytes: &[u8]) -> Result<(), AppendFault>
        ensures kept { IfErr result (λ e. e.kept ≤ length bytes.now) }
        ensures content { (file_state self.new).content ≡ (file_state self.old).content ++ added_bytes result bytes.now }
        ensures durable { (file_state self.old).durable ≤ (file_state self.new).durable }
        ensures same { (file_state self.new).object ≡ (file_state self.old).object }
        ensures counted { (file_state self.new).tally ≡ one_call (is_err result) (file_state self.old).tally }
        ensures cause { HasCause (file_count (file_state self.old)) (file_count (file_state self.new)) result }
        ensures planned { FileAppendsAsPlanned (file_state self.old) (file_state self.new) (length bytes.now) result }
    {
        let due = self.due();
        let kept = match due {
            Some(kept) => bytes.len().min(kept as usize),
            None => bytes.len(),
        };
        let (part, _) = bytes.split_at(kept);
        if self.bytes.extend_from_slice(part).is_err() {
            self.starved = self.starved.saturating_add(1);
            self.tally.count(true);
            return Err(AppendFault { kept: 0 });
        }
        self.tally.count(due.is_some());
        if due.is_some() {
            return Err(AppendFault { kept: kept as u64 });
        }
        Ok(())
    }

    fn hsync(&mut self) -> Result<(), StoreFault>
        ensures done { OnOk result ((file_state self.new).durable ≡ length (file_state self.new).content) }
        ensures content { (file_state self.new).content ≡ (file_state self.old).content }
        ensures durable { (file_state self.old).durable ≤ (file_state self.new).durable }
        ensures same { (file_state self.new).object ≡ (file_state self.old).object }
        ensures counted { (file_state self.new).tally ≡ one_call (is_err result) (file_state self.old).tally }
        ensures cause { HasCause (file_count (file_state self.old)) (file_count (file_state self.new)) result }
        ensures planned { FileSyncsAsPlanned (file_state self.old) (file_state self.new) result }
    {
        if self.fails() {
            return Err(StoreFault);
        }
        self.durable = self.bytes.len();
        Ok(())
    }

    fn read_at(&mut self, offset: u64, out: &mut [u8]) -> Result<usize, StoreFault>
        ensures length { IfOk result (λ n. n ≡ min (length out.old) (length (file_state self.old).content - offset)) }
        ensures bytes { IfOk result (λ n. take n out.new ≡ part_at (file_state self.old).content offset n) }
        ensures rest { IfOk result (λ n. out.new ≡ part_at (file_state self.old).content offset n ++ drop n out.old) }
        ensures content { (file_state self.new).content ≡ (file_state self.old).content }
        ensures durable { (file_state self.new).durable ≡ (file_state self.old).durable }
        ensures same { (file_state self.new).object ≡ (file_state self.old).object }
        ensures counted { (file_state self.new).tally ≡ one_call (is_err result) (file_state self.old).tally }
        ensures cause { HasCause (file_count (file_state self.old)) (file_count (file_state self.new)) result }
        ensures planned { FileReadsAsPlanned (file_state self.old) (file_state self.new) result }
    {
        if self.fails() {
            return Err(StoreFault);
        }
        Ok(copy_part(&self.bytes, offset, out))
    }

    fn len(&self) -> u64 {
        self.bytes.len() as u64
    }

    fn faults(&self) -> u64 {
        self.planned.saturating_add(self.starved)
    }
}

// What the first entry that names this call keeps.
#[tactic(auto, unfolding(crate::specs::Plan::due_of))]
fn first_due(plan: &[Planned], call: u64) -> Option<u64>
    ensures { result ≡ due_of plan.now call }
{
    for entry in plan {
        if entry.call == call {
            return Some(entry.kept);
        }
    }
    None
}

// Copies what lies from an offset on into the front of a slice, as far as there is room.
pub(crate) fn copy_part(bytes: &[u8], offset: u64, out: &mut [u8]) -> usize
    ensures many { result ≡ min (length out.old) (length bytes.now - offset) }
    ensures copied { out.new ≡ part_at bytes.now offset result ++ drop result out.old }
{
    let start = bytes.len().min(offset as usize);
    let (_, rest) = bytes.split_at(start);
    let count = rest.len().min(out.len());
    let (part, _) = rest.split_at(count);
    out[..count].copy_from_slice(part);
    count
}

impl MemFile {
    ghost use Rattle.std.specs.Prelude.{length, is_some};
    ghost use Rattle.append_store.specs.State.{IsCrashImage};
    ghost use Rattle.append_store.specs.File.{cut_file, IsFresh, IsDue, IsEmptied, IsHandedOut, counted_call, next_due, file_state, kept_file};

    // A file of no bytes, with the calls of this object that are to fail.
    pub(crate) fn empty(alloc: Global, object: ObjectId, plan: Vec<Planned>) -> Self
        ensures { IsFresh (file_state result) plan.items }
    {
        MemFile {
            object,
            bytes: Vec::new(alloc),
            durable: 0,
            plan,
            calls: 0,
            planned: 0,
            starved: 0,
            tally: Tally::new(),
        }
    }

    // Counts a call, and its failure where it is to fail; gives what an append keeps then.
    pub(crate) fn due(&mut self) -> Option<u64>
        ensures { IsDue self.old self.new result }
    {
        self.calls = self.calls.saturating_add(1);
        let due = first_due(&self.plan, self.calls);
        if due.is_some() {
            self.planned = self.planned.saturating_add(1);
        }
        due
    }

    // Counts a call that fails exactly where it is to fail; whether it does.
    fn fails(&mut self) -> bool
        ensures due { result ≡ is_some (next_due (file_state self.old)) }
        ensures counted { file_state self.new ≡ counted_call (file_state self.old) result }
    {
        let due = self.due().is_some();
        self.tally.count(due);
        due
    }

    /// What the file counted since it was taken.
    pub fn tally(&self) -> Tally
        ensures { result ≡ (file_state self.now).tally }
    {
        self.tally
    }

    /// The object that the file was taken of.
    pub fn object(&self) -> ObjectId
        ensures { result ≡ (file_state self.now).object }
    {
        self.object
    }

    /// How many calls since the file was taken failed because the plan names them.
    pub fn planned(&self) -> u64
        ensures { result ≡ (file_state self.now).planned }
    {
        self.planned
    }

    /// How often since the file was taken a growth found no memory.
    pub fn starved(&self) -> u64
        ensures { result ≡ (file_state self.now).starved }
    {
        self.starved
    }

    pub(crate) fn length(&self) -> u64
        ensures { result ≡ length (file_state self.now).content }
    {
        self.bytes.len() as u64
    }

    pub(crate) fn bytes(&self) -> &[u8]
        ensures { result.now ≡ (file_state self.now).content }
    {
        &self.bytes
    }

    // Keeps what is durable and so many bytes more, and all of that is durable then.
    pub(crate) fn cut(&mut self, pick: u64)
        ensures image { IsCrashImage (kept_file (file_state self.old)) (kept_file (file_state self.new)) }
        ensures cut { file_state self.new ≡ cut_file pick (file_state self.old) }
    {
        let most = self.durable.saturating_add(pick as usize);
        let kept = self.bytes.len().min(most);
        self.durable = 0;
        self.bytes.truncate(kept);
        self.durable = kept;
    }

    // The file with no bytes.
    pub(crate) fn emptied(mut self) -> Self
        ensures { IsEmptied (file_state self) (file_state result) }
    {
        self.durable = 0;
        self.bytes.clear();
        self
    }

    // The file under its name, with no faults and no calls.
    pub(crate) fn handed_out(mut self, object: ObjectId) -> Self
        ensures { IsHandedOut (file_state self) (file_state result) object }
    {
        self.object = object;
        self.planned = 0;
        self.starved = 0;
        self.tally = Tally::new();
        self
    }
}
