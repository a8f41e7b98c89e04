// A store in memory, which fails at the calls that it is told to fail at.
ghost use Rattle.std.specs.Prelude.{[], ◌∷◌, take, ◌≡◌, ◌≢◌, ◌⊎◌, ◌++◌, ◌-◌, ◌≤◌, ◌<◌, List, min, length, drop, OnOk, OnErr, IfOk, IsErrOf, None, is_err};
ghost use Rattle.std.specs.BTreeMap.{get, IsOrdered};
ghost use Rattle.std.specs.Option.{option_copied};
ghost use Rattle.gw_model.specs.declared.object.ObjectId.{ObjectId};
ghost use Rattle.append_store.specs.declared.mem_file.Planned.{Planned};
ghost use Rattle.gw_outside.specs.Causes.{HasCause, Rose, Carries};
ghost use Rattle.gw_outside.specs.Tally.{joined_tally, no_calls, one_call};
ghost use Rattle.append_store.specs.State.{IsAway, IsCrashImage, IsThere, Missing, Lent, bytes_of, content_in};
ghost use Rattle.append_store.specs.Calls.{Creates, MayCreate, GuardsAt, IsRising, Lists, creation_tally, listing_tally, object_cmp, part_at};
ghost use Rattle.append_store.specs.Plan.{is_of, is_store_call_named, plan_for};
ghost use Rattle.append_store.specs.File.{file_count, file_state, kept_file};
ghost use Rattle.append_store.specs.Slots.{CreatesSlot, IsCut, IsTakenOf, IsBackAs, IsForeign, IsLentAs, Related, cut_slot, entries_listing, slot_in};
ghost use Rattle.append_store.specs.Store.{IsNewStore, CreatesAsPlanned, TakesAsPlanned, ReadsClosedAsPlanned, DeletesAsPlanned, ListsAsPlanned, ReopensAsPlanned, AddsFaults, losses_at, slot_at, state_at, store_count, store_of};

use crate::slots::{
    Deletion, Entry, Spot, bytes_at, create_at, cut_at, delete_at, give_at, read_at, take_at,
};
use crate::{Cluster, CreateFault, ListFault, MemFile, Planned, StoreFault};
use gw_model::{KeptObject, ObjectId};
use gw_outside::Tally;
use std::alloc::{AllocError, Global};
use std::collections::BTreeMap;

/// A store in memory. The calls that are planned to fail do so: of each object `create`,
/// `take_file`, `read_closed`, `delete` and the file's `append`, `hsync` and `read_at` are counted,
/// from 1, and over deletions and crashes. A `create` of an object that is out isn't counted, and
/// neither is one that finds no memory. `list` and `reopen` are counted
/// together, with no object. A foreign file is let go.
#[derive(Drop)]
pub struct MemCluster {
    alloc: Global,
    entries: BTreeMap<ObjectId, Entry>,
    failing: Vec<Planned>,
    calls: u64,
    planned: u64,
    starved: u64,
    tally: Tally,
}

// Whether an entry of the plan is for a call of this object.
fn is_planned_for(entry: &Planned, object: ObjectId) -> bool
    ensures { result ≡ is_of object entry.now.object }
{
    entry.object == Some(object)
}

// The entries of the plan that are for calls of this object.
#[tactic(auto, unfolding(crate::specs::Plan::plan_for))]
fn plan_of(alloc: Global, failing: &[Planned], object: ObjectId) -> Result<Vec<Planned>, AllocError>
    ensures { IfOk result (λ plan. plan.items ≡ plan_for object failing.now) }
{
    let mut plan = Vec::new(alloc);
    for entry in failing {
        if is_planned_for(entry, object) {
            plan.push(*entry)?;
        }
    }
    Ok(plan)
}

// Whether the plan names this call on the store as a whole.
#[tactic(auto, unfolding(crate::specs::Plan::is_store_call_named))]
fn names_call(failing: &[Planned], call: u64) -> bool
    ensures { result ≡ is_store_call_named failing.now call }
{
    for entry in failing {
        if entry.object.is_none() && entry.call == call {
            return true;
        }
    }
    false
}

// The entries that are there, with their lengths.
fn listing(
    alloc: Global,
    entries: &BTreeMap<ObjectId, Entry>,
) -> Result<Vec<KeptObject>, AllocError>
    ensures items { IfOk result (λ all. all.items ≡ entries_listing entries.now.entries) }
    ensures ordered { IsOrdered object_cmp entries.now }
{
    // A call on the map tells that its entries are in order, which the clause passes on.
    let _ = entries.len();
    let mut all = Vec::new(alloc);
    for (object, entry) in entries {
        if let Spot::Here(file) = &entry.spot {
            let length = file.length();
            all.push(KeptObject {
                object: *object,
                length,
            })?;
        }
    }
    Ok(all)
}

// What is there, in the order of the names.
fn list_in(
    alloc: Global,
    entries: &BTreeMap<ObjectId, Entry>,
) -> Result<Vec<KeptObject>, AllocError>
    ensures listed { (failing : List Planned) → IfOk result (λ all. Lists (λ q. (slot_in failing entries.now q).state) all.items) }
    ensures rising { IfOk result (λ all. IsRising all.items) }
{
    let all = listing(alloc, entries)?;
    Ok(all)
}

// Cuts each object as a crash does.
fn cut_each(entries: &mut BTreeMap<ObjectId, Entry>, pick: u64)
    ensures { (q : ObjectId) → Related (IsCut pick) (get object_cmp entries.old q) (get object_cmp entries.new q) }
{
    entries.retain(|_, entry| {
        cut_at(entry, pick);
        true
    });
}

// Makes the store what it may be after a crash.
fn cut_all(entries: &mut BTreeMap<ObjectId, Entry>, pick: u64)
    ensures image { (failing : List Planned) (q : ObjectId)
        → IsCrashImage (slot_in failing entries.old q).state (slot_in failing entries.new q).state }
    ensures cut { (failing : List Planned) (q : ObjectId) → slot_in failing entries.new q ≡ cut_slot pick (slot_in failing entries.old q) }
{
    cut_each(entries, pick);
}

// Makes an object of no bytes where nothing is, and an entry where the name was never used; false
// where the call is to fail.
fn create_in(
    alloc: Global,
    entries: &mut BTreeMap<ObjectId, Entry>,
    failing: &[Planned],
    object: ObjectId,
) -> Result<bool, AllocError>
    ensures made { IfOk result (λ made.
        CreatesSlot (slot_in failing.now entries.old object) (slot_in failing.now entries.new object) made) }
    ensures unused { OnErr result (get object_cmp entries.old object ≡ None) }
    ensures refused { OnErr result (get object_cmp entries.new object ≡ None) }
    ensures others { (q : ObjectId) → q ≢ object → get object_cmp entries.new q ≡ get object_cmp entries.old q }
{
    if let Some(entry) = entries.get_mut(&object) {
        return Ok(create_at(object, entry));
    }
    let plan = plan_of(alloc, failing, object)?;
    let spot = Spot::Gone(MemFile::empty(alloc, object, plan));
    let mut entry = Entry { spot, losses: 0 };
    let made = create_at(object, &mut entry);
    entries.insert(object, entry)?;
    Ok(made)
}

impl MemCluster {
    /// An empty store. The calls that `failing` names fail.
    pub fn new(alloc: Global, failing: Vec<Planned>) -> Self
        ensures { IsNewStore (store_of result) failing.items }
    {
        MemCluster {
            alloc,
            entries: BTreeMap::new(alloc),
            failing,
            calls: 0,
            planned: 0,
            starved: 0,
            tally: Tally::new(),
        }
    }

    /// The bytes of an object; None exactly where it isn't there or is out.
    pub fn content_of(&self, object: ObjectId) -> Option<&[u8]>
        ensures { option_copied result ≡ content_in (slot_at self.now object).state }
    {
        bytes_at(self.entries.get(&object)?)
    }

    /// How many calls failed because the plan names them, with those of the files that were given
    /// back.
    pub fn planned(&self) -> u64
        ensures { result ≡ (store_of self.now).planned }
    {
        self.planned
    }

    /// How often a growth found no memory, with those of the files that were given back.
    pub fn starved(&self) -> u64
        ensures { result ≡ (store_of self.now).starved }
    {
        self.starved
    }
}

impl Cluster for MemCluster {
    type File = MemFile;

    ghost at = { state_at };

    ghost losses = { losses_at };

    ghost count = { store_count };

    ghost tally = { λ c. c.tally };

    fn list(&mut self) -> Result<Vec<KeptObject>, ListFault>
        requires { (q : ObjectId) → IsAway (state_at self.old q) → ⊥ }
        ensures listed { IfOk result (λ all. Lists (λ q. state_at self.old q) all.items) }
        ensures rising { IfOk result (λ all. IsRising all.items) }
        ensures same { (q : ObjectId) → slot_at self.new q ≡ slot_at self.old q }
        ensures no_losses { (q : ObjectId) → losses_at self.new q ≡ losses_at self.old q }
        ensures later { store_count self.old ≤ store_count self.new }
        ensures counted { self.new.tally ≡ listing_tally result self.old.tally }
        ensures cause { IsErrOf result ListFault.Fault → Rose (store_count self.old) (store_count self.new) }
        ensures planned { ListsAsPlanned (store_of self.old) (store_of self.new) result }
    {
        self.calls = self.calls.saturating_add(1);
        if names_call(&self.failing, self.calls) {
            self.planned = self.planned.saturating_add(1);
            self.tally.count(true);
            return Err(ListFault::Fault);
        }
        match list_in(self.alloc, &self.entries) {
            Ok(all) => {
                self.tally.count(false);
                Ok(all)
            }
            Err(_) => {
                self.starved = self.starved.saturating_add(1);
                Err(ListFault::Memory)
            }
        }
    }

    fn create(&mut self, object: ObjectId) -> Result<(), CreateFault>
        ensures done { OnOk result (Creates (state_at self.old object) (state_at self.new object)) }
        ensures failed { OnErr result (MayCreate (state_at self.old object) (state_at self.new object)) }
        ensures refused { IsErrOf result CreateFault.Memory → state_at self.new object ≡ state_at self.old object }
        ensures others { (q : ObjectId) → q ≢ object → slot_at self.new q ≡ slot_at self.old q }
        ensures losses { GuardsAt state_at losses_at object self.old self.new }
        ensures losses_there { state_at self.old object ≢ Missing → losses_at self.new object ≡ losses_at self.old object }
        ensures no_losses { (q : ObjectId) → q ≢ object → losses_at self.new q ≡ losses_at self.old q }
        ensures later { store_count self.old ≤ store_count self.new }
        ensures counted { self.new.tally ≡ creation_tally result self.old.tally }
        ensures cause { IsErrOf result CreateFault.Fault → Rose (store_count self.old) (store_count self.new) }
        ensures planned { CreatesAsPlanned (store_of self.old) (store_of self.new) object result }
    {
        match create_in(self.alloc, &mut self.entries, &self.failing, object) {
            Ok(true) => {
                self.tally.count(false);
                Ok(())
            }
            Ok(false) => {
                self.planned = self.planned.saturating_add(1);
                self.tally.count(true);
                Err(CreateFault::Fault)
            }
            Err(_) => {
                self.starved = self.starved.saturating_add(1);
                Err(CreateFault::Memory)
            }
        }
    }

    fn take_file(&mut self, object: ObjectId) -> Result<MemFile, StoreFault>
        requires { IsThere (state_at self.old object) }
        ensures taken { IfOk result (λ file. state_at self.old object ≡ kept_file (file_state file)) }
        ensures out { IfOk result (λ file. state_at self.new object ≡ Lent ((file_state file).object ∷ [])) }
        ensures fresh { IfOk result (λ file. file_count (file_state file) ≡ 0) }
        ensures no_calls { IfOk result (λ file. (file_state file).tally ≡ no_calls) }
        ensures failed { OnErr result (state_at self.new object ≡ state_at self.old object) }
        ensures others { (q : ObjectId) → q ≢ object → slot_at self.new q ≡ slot_at self.old q }
        ensures no_losses { (q : ObjectId) → losses_at self.new q ≡ losses_at self.old q }
        ensures counted { self.new.tally ≡ one_call (is_err result) self.old.tally }
        ensures cause { HasCause (store_count self.old) (store_count self.new) result }
        ensures file { IfOk result (λ file. IsTakenOf (slot_at self.old object) object (file_state file)) }
        ensures planned { TakesAsPlanned (store_of self.old) (store_of self.new) object result }
    {
        match self.entries.get_mut(&object) {
            Some(entry) => {
                if let Some(file) = take_at(object, entry) {
                    self.tally.count(false);
                    return Ok(file);
                }
                self.planned = self.planned.saturating_add(1);
                self.tally.count(true);
                Err(StoreFault)
            }
            None => unreachable!(),
        }
    }

    fn give_file(&mut self, object: ObjectId, file: MemFile)
        ensures own { IsLentAs (slot_at self.old object) (file_state file) → state_at self.new object ≡ kept_file (file_state file) }
        ensures own_losses { IsLentAs (slot_at self.old object) (file_state file) → losses_at self.new object ≡ losses_at self.old object }
        ensures foreign { IsForeign (slot_at self.old object) (file_state file)
            → (state_at self.new object ≡ state_at self.old object) ⊎ (losses_at self.old object < losses_at self.new object) }
        ensures losses { losses_at self.old object ≤ losses_at self.new object }
        ensures others { (q : ObjectId) → q ≢ object → slot_at self.new q ≡ slot_at self.old q }
        ensures no_losses { (q : ObjectId) → q ≢ object → losses_at self.new q ≡ losses_at self.old q }
        ensures counted { self.new.tally ≡ joined_tally self.old.tally (file_state file).tally }
        ensures count { Carries (store_count self.old) (file_count (file_state file)) (store_count self.new) }
        ensures back { IsLentAs (slot_at self.old object) (file_state file)
            → IsBackAs (slot_at self.old object) (slot_at self.new object) (file_state file) }
        ensures let_go { IsForeign (slot_at self.old object) (file_state file) → slot_at self.new object ≡ slot_at self.old object }
        ensures faults { AddsFaults (store_of self.old) (store_of self.new) (file_state file) }
    {
        self.planned = self.planned.saturating_add(file.planned());
        self.starved = self.starved.saturating_add(file.starved());
        self.tally.join(file.tally());
        if let Some(entry) = self.entries.get_mut(&object) {
            give_at(object, entry, file);
        }
    }

    fn read_closed(
        &mut self,
        object: ObjectId,
        offset: u64,
        out: &mut [u8],
    ) -> Result<usize, StoreFault>
        requires { IsThere (state_at self.old object) }
        ensures bound { IfOk result (λ n. n ≤ length out.old) }
        ensures length { IfOk result (λ n. n ≡ min (length out.old) (length (bytes_of (state_at self.old object)) - offset)) }
        ensures bytes { IfOk result (λ n. take n out.new ≡ part_at (bytes_of (state_at self.old object)) offset n) }
        ensures rest { IfOk result (λ n. out.new ≡ part_at (bytes_of (state_at self.old object)) offset n ++ drop n out.old) }
        ensures same { (q : ObjectId) → state_at self.new q ≡ state_at self.old q }
        ensures others { (q : ObjectId) → q ≢ object → slot_at self.new q ≡ slot_at self.old q }
        ensures no_losses { (q : ObjectId) → losses_at self.new q ≡ losses_at self.old q }
        ensures counted { self.new.tally ≡ one_call (is_err result) self.old.tally }
        ensures cause { HasCause (store_count self.old) (store_count self.new) result }
        ensures planned { ReadsClosedAsPlanned (store_of self.old) (store_of self.new) object result }
    {
        match self.entries.get_mut(&object) {
            Some(entry) => {
                if let Some(many) = read_at(object, entry, offset, out) {
                    self.tally.count(false);
                    return Ok(many);
                }
                self.planned = self.planned.saturating_add(1);
                self.tally.count(true);
                Err(StoreFault)
            }
            None => unreachable!(),
        }
    }

    fn delete(&mut self, object: ObjectId) -> Result<(), StoreFault>
        requires { IsThere (state_at self.old object) }
        ensures done { OnOk result (state_at self.new object ≡ Missing) }
        ensures failed { OnErr result (state_at self.new object ≡ state_at self.old object) }
        ensures others { (q : ObjectId) → q ≢ object → slot_at self.new q ≡ slot_at self.old q }
        ensures losses { GuardsAt state_at losses_at object self.old self.new }
        ensures no_losses { (q : ObjectId) → q ≢ object → losses_at self.new q ≡ losses_at self.old q }
        ensures counted { self.new.tally ≡ one_call (is_err result) self.old.tally }
        ensures cause { HasCause (store_count self.old) (store_count self.new) result }
        ensures planned { DeletesAsPlanned (store_of self.old) (store_of self.new) object result }
    {
        match self.entries.get_mut(&object) {
            Some(entry) => match delete_at(object, entry) {
                Deletion::Done => {
                    self.tally.count(false);
                    Ok(())
                }
                Deletion::Planned => {
                    self.planned = self.planned.saturating_add(1);
                    self.tally.count(true);
                    Err(StoreFault)
                }
                Deletion::Full => {
                    self.starved = self.starved.saturating_add(1);
                    self.tally.count(true);
                    Err(StoreFault)
                }
            },
            None => unreachable!(),
        }
    }

    /// Keeps of each object the lesser of its length and `pick` bytes more than were durable.
    fn reopen(&mut self, pick: u64) -> Result<(), StoreFault>
        requires { (q : ObjectId) → IsAway (state_at self.old q) → ⊥ }
        ensures done { OnOk result ((q : ObjectId) → IsCrashImage (state_at self.old q) (state_at self.new q)) }
        ensures failed { OnErr result ((q : ObjectId) → slot_at self.new q ≡ slot_at self.old q) }
        ensures no_losses { (q : ObjectId) → losses_at self.new q ≡ losses_at self.old q }
        ensures counted { self.new.tally ≡ one_call (is_err result) self.old.tally }
        ensures cause { HasCause (store_count self.old) (store_count self.new) result }
        ensures planned { ReopensAsPlanned (store_of self.old) (store_of self.new) pick result }
    {
        self.calls = self.calls.saturating_add(1);
        if names_call(&self.failing, self.calls) {
            self.planned = self.planned.saturating_add(1);
            self.tally.count(true);
            return Err(StoreFault);
        }
        cut_all(&mut self.entries, pick);
        self.tally.count(false);
        Ok(())
    }

    fn faults(&self) -> u64 {
        self.planned.saturating_add(self.starved)
    }
}
