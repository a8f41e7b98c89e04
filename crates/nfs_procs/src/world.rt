// The names and the open files, and the requests that wait: what each operation makes of them.
ghost use Rattle.std.specs.Prelude.{◌≡◌, ◌≤◌, ◌<◌, ◌+◌, ◌-◌, ◌^◌, ℕ, [], false, true, IfErr, IfOk, OnErr, length, string_bytes, None};
ghost use Rattle.gw_outside.specs.Causes.{Rose};
ghost use Rattle.gw_model.specs.Views.{next_event};
ghost use Rattle.append_store.specs.State.{IsAway, bytes_of};
ghost use Rattle.gw_model.specs.declared.object.ObjectId.{ObjectId};
ghost use Rattle.append_store.specs.State.{ObjectState};
ghost use Rattle.gw_config.specs.Ranges.{AreInRange};
ghost use Rattle.gw_config.specs.Seen.{settings_in};
ghost use Rattle.file_calls.specs.Acts.{WriteFile, ReadFile, CommitFile, TurnFile, PumpFile, SyncFile, Reply, CloseConnection};
ghost use Rattle.nfs_procs.specs.Closing.{GivesAllBack, WritesHistories};
ghost use Rattle.file_requests.specs.Messages.{is_file as is_file_of};
ghost use Rattle.file_calls.specs.Outside.{Store, body_id, scene, store_counts, without_outcomes, IsActCut, IsBodyHome, IsText, OthersStay, StepsTo};
ghost use Rattle.file_calls.specs.PartSteps.{SameFile};
ghost use Rattle.file_requests.specs.Targets.{OnDesk, OnFile, IsFitting, IsRequestOf, ends_connection, is_ending, request_target};
ghost use Rattle.nfs_procs.specs.World.{Operation, CreateNamed, Serve, Break, HangUp as HangUpOf, TurnOf, PumpOf, SyncOf, entry_at, has_name, may_open as may_open_of};
ghost use Rattle.nfs_procs.specs.World.{opening_target, target_by_state, names_after};
ghost use Rattle.nfs_procs.specs.Contexts.{ProgramState, StoreState, initial_state, file_count as file_count_of, state_at, scene_at, bodies_at, store_state};
ghost use Rattle.nfs_procs.specs.Contexts.{world_scene, world_scene_of, AreBodiesPlaced, AreBodiesSafe, ChangesPart, HasTarget, IsContextKept};
ghost use Rattle.nfs_procs.specs.Contexts.{IsCutOff, IsDone, IsOperation, IsServed, LossesStay, ObjectsStay, SameLosses, StaysThere};

use crate::hulls::{Hulls, lost_of};
use crate::served::Served;
use append_store::Cluster;
use bytes::Bytes;
use file_calls::{
    CommitCall, FirstWrite, ReadCall, RequestTracker, StepResult, WriteCall, close_cell,
    commit_cell, commit_closed, create_body, first_write, idle_event, pump_cell, read_cell,
    read_closed, refuse_write, sync_cell, turn_cell, write_cell,
};
use file_cell::FileCell;
use file_requests::{Refused, Request, busy_request, read_request};
use gw_config::Config;
use gw_outside::{Sink, WriteFault};
use range_map::TreeMap;
use std::alloc::{AllocError, Global};
use std::collections::BTreeMap;
use std::collections::btree_map::Entry;
use std::marker::Model;

/// The number of the file that is made first.
const FIRST_FILE: u64 = 4;

/// The names of the files in the root, the contexts of the files by their numbers, the requests that wait for an answer, the
/// outcomes that were noted, the settings of the gateway and the moment, and what was lost of files that were closed.
#[derive(Drop)]
pub struct World<C: Cluster> {
    pub(crate) alloc: Global,
    pub(crate) names: BTreeMap<Bytes, u64>,
    pub(crate) cells: BTreeMap<u64, FileCell<C::File, TreeMap>>,
    pub(crate) tracker: RequestTracker,
    pub(crate) hulls: Hulls,
}

impl<C: Cluster> Model for World<C> {
    ghost use Rattle.nfs_procs.specs.Contexts.{ProgramState, AreCellsReady};

    ghost Value = { ProgramState };

    ghost view = { λ w. record { names = w.names.entries; cells = w.cells.entries; tracker = w.tracker; hulls = w.hulls.entries } };

    ghost invariant = { λ w. AreCellsReady w.tracker.settings.limits w.cells.entries };
}

impl<C: Cluster> World<C> {
    /// No file is in the tree, nobody waits, and nothing was noted. The settings are in their ranges, as `Config::from_toml`
    /// gives them.
    pub fn new(alloc: Global, config: Config) -> World<C>
        requires in_range { AreInRange (settings_in config) }
        ensures { result ≡ initial_state (settings_in config) }
    {
        World {
            alloc,
            names: BTreeMap::new(alloc),
            cells: BTreeMap::new(alloc),
            tracker: RequestTracker::new(alloc, config),
            hulls: BTreeMap::new(alloc),
        }
    }

    /// The next event begins.
    pub fn begin_event(&mut self)
        ensures { self.new ≡ record self.old { tracker = record self.old.tracker { noted = next_event self.old.tracker.noted } } }
    {
        self.tracker.begin_event();
    }

    /// Forgets the outcomes that were noted.
    pub fn clear(&mut self)
        ensures { self.new ≡ record self.old { tracker = without_outcomes self.old.tracker self.new.tracker.noted.room } }
    {
        self.tracker.clear();
    }

    /// How many files are in the tree.
    pub fn file_count(&self) -> u64
        ensures { result ≡ file_count_of self.now }
    {
        self.names.len() as u64
    }

    // The body of the next file is created, which has this name.
    fn make_next(&mut self, name: Bytes, cluster: &mut C) -> StepResult
        requires new { has_name name self.old.names ≡ false }
        requires placed { AreBodiesPlaced C.File.tells (file_count_of self.old) (C.at cluster.old) self.old.cells }
        ensures step { IsOperation C.File.tells result (CreateNamed name)
            (world_scene_of C.Cluster self.old cluster.old) (world_scene_of C.Cluster self.new cluster.new) }
        ensures placed_after { IsText result
            → AreBodiesPlaced C.File.tells (file_count_of self.new) (C.at cluster.new) self.new.cells }
        ensures safe { AreBodiesSafe C.File.tells (C.at cluster.new) self.new.cells }
        ensures others { C.File.tells → ObjectsStay (store_state C.Cluster cluster.old) (store_state C.Cluster cluster.new) }
        ensures losses { C.File.tells → LossesStay (store_state C.Cluster cluster.old) (store_state C.Cluster cluster.new) }
        ensures there { IsText result → C.File.tells
            → StaysThere (store_state C.Cluster cluster.old) (store_state C.Cluster cluster.new) }
        ensures event { self.new.tracker.noted.event ≡ self.old.tracker.noted.event }
        ensures settings { self.new.tracker.settings ≡ self.old.tracker.settings }
        ensures cause { result ≡ StepResult.StoreFault → Rose
            (world_scene_of C.Cluster self.old cluster.old).counts.faults (world_scene_of C.Cluster self.new cluster.new).counts.faults }
    {
        let file = FIRST_FILE + self.names.len() as u64;
        if self.names.insert(name, file).is_err() {
            return StepResult::NoMemory;
        }
        create_body(file, &mut self.tracker, cluster)
    }

    /// A file of this name is made, empty, in the root. Where the name is there already, nothing is changed and no call is
    /// made. Takes memory.
    pub fn make_file(&mut self, name: &[u8], cluster: &mut C) -> StepResult
        requires placed { AreBodiesPlaced C.File.tells (file_count_of self.old) (C.at cluster.old) self.old.cells }
        ensures step { IsOperation C.File.tells result (CreateNamed name.now)
            (world_scene_of C.Cluster self.old cluster.old) (world_scene_of C.Cluster self.new cluster.new) }
        ensures placed_after { IsText result
            → AreBodiesPlaced C.File.tells (file_count_of self.new) (C.at cluster.new) self.new.cells }
        ensures safe { AreBodiesSafe C.File.tells (C.at cluster.new) self.new.cells }
        ensures others { C.File.tells → ObjectsStay (store_state C.Cluster cluster.old) (store_state C.Cluster cluster.new) }
        ensures losses { C.File.tells → LossesStay (store_state C.Cluster cluster.old) (store_state C.Cluster cluster.new) }
        ensures there { IsText result → C.File.tells
            → StaysThere (store_state C.Cluster cluster.old) (store_state C.Cluster cluster.new) }
        ensures event { self.new.tracker.noted.event ≡ self.old.tracker.noted.event }
        ensures settings { self.new.tracker.settings ≡ self.old.tracker.settings }
        ensures cause { result ≡ StepResult.StoreFault → Rose
            (world_scene_of C.Cluster self.old cluster.old).counts.faults (world_scene_of C.Cluster self.new cluster.new).counts.faults }
    {
        let Ok(name) = Bytes::copy_from_slice(self.alloc, name) else {
            return StepResult::NoMemory;
        };
        if self.names.contains_key(&name) {
            return StepResult::Text(String::new(self.alloc));
        }
        self.make_next(name, cluster)
    }

    fn turn_part(&mut self, file: u64) -> Result<String, AllocError>
        requires few { self.old.tracker.noted.event < 2 ^ 64 - 1 }
        ensures ok { (s : Store) → IfOk result (StepsTo C.File.tells TurnFile
            (scene (state_at file self.old) s) (scene (state_at file self.new) s)) }
        ensures err { (s : Store) → OnErr result (IsActCut C.File.tells TurnFile
            (scene (state_at file self.old) s) (scene (state_at file self.new) s)) }
        ensures part { ChangesPart file self.old self.new }
        ensures same { SameFile (entry_at file self.old.cells) (entry_at file self.new.cells) }
        ensures event { self.new.tracker.noted.event ≡ self.old.tracker.noted.event + 1 }
        ensures settings { self.new.tracker.settings ≡ self.old.tracker.settings }
    {
        match self.cells.get_mut(&file) {
            Some(cell) => turn_cell(cell, &mut self.tracker),
            None => Ok(idle_event(&mut self.tracker)),
        }
    }

    fn pump_part(&mut self, file: u64) -> Result<String, AllocError>
        requires few { self.old.tracker.noted.event < 2 ^ 64 - 1 }
        ensures ok { (s : Store) → IfOk result (StepsTo C.File.tells PumpFile
            (scene (state_at file self.old) s) (scene (state_at file self.new) s)) }
        ensures err { (s : Store) → OnErr result (IsActCut C.File.tells PumpFile
            (scene (state_at file self.old) s) (scene (state_at file self.new) s)) }
        ensures part { ChangesPart file self.old self.new }
        ensures same { SameFile (entry_at file self.old.cells) (entry_at file self.new.cells) }
        ensures event { self.new.tracker.noted.event ≡ self.old.tracker.noted.event + 1 }
        ensures settings { self.new.tracker.settings ≡ self.old.tracker.settings }
    {
        match self.cells.get_mut(&file) {
            Some(cell) => pump_cell(cell, &mut self.tracker),
            None => Ok(idle_event(&mut self.tracker)),
        }
    }

    fn sync_part(&mut self, file: u64) -> Result<String, AllocError>
        requires few { self.old.tracker.noted.event < 2 ^ 64 - 1 }
        ensures ok { (s : Store) → IfOk result (StepsTo C.File.tells SyncFile
            (scene (state_at file self.old) s) (scene (state_at file self.new) s)) }
        ensures err { (s : Store) → OnErr result (IsActCut C.File.tells SyncFile
            (scene (state_at file self.old) s) (scene (state_at file self.new) s)) }
        ensures part { ChangesPart file self.old self.new }
        ensures same { SameFile (entry_at file self.old.cells) (entry_at file self.new.cells) }
        ensures event { self.new.tracker.noted.event ≡ self.old.tracker.noted.event + 1 }
        ensures settings { self.new.tracker.settings ≡ self.old.tracker.settings }
    {
        match self.cells.get_mut(&file) {
            Some(cell) => sync_cell(cell, &mut self.tracker),
            None => Ok(idle_event(&mut self.tracker)),
        }
    }

    /// An event of a file: its writer does the first job. Takes memory.
    pub fn turn(&mut self, file: u64) -> Result<String, AllocError>
        requires few { self.old.tracker.noted.event < 2 ^ 64 - 1 }
        ensures ok { (s : StoreState) → IfOk result (λ text. IsDone C.File.tells (TurnOf file)
            (world_scene self.old s) (world_scene self.new s) (string_bytes text) false) }
        ensures err { (s : StoreState) → OnErr result (IsCutOff C.File.tells (TurnOf file)
            (world_scene self.old s) (world_scene self.new s)) }
        ensures placed { (at : ObjectId → ObjectState) → AreBodiesPlaced C.File.tells (file_count_of self.old) at self.old.cells
            → AreBodiesPlaced C.File.tells (file_count_of self.new) at self.new.cells }
        ensures names { self.new.names ≡ self.old.names }
        ensures event { self.new.tracker.noted.event ≡ self.old.tracker.noted.event + 1 }
        ensures settings { self.new.tracker.settings ≡ self.old.tracker.settings }
    {
        self.turn_part(file)
    }

    /// An event of a file: its admission side hears of its writer, and sends what is ready. Takes memory.
    pub fn pump(&mut self, file: u64) -> Result<String, AllocError>
        requires few { self.old.tracker.noted.event < 2 ^ 64 - 1 }
        ensures ok { (s : StoreState) → IfOk result (λ text. IsDone C.File.tells (PumpOf file)
            (world_scene self.old s) (world_scene self.new s) (string_bytes text) false) }
        ensures err { (s : StoreState) → OnErr result (IsCutOff C.File.tells (PumpOf file)
            (world_scene self.old s) (world_scene self.new s)) }
        ensures placed { (at : ObjectId → ObjectState) → AreBodiesPlaced C.File.tells (file_count_of self.old) at self.old.cells
            → AreBodiesPlaced C.File.tells (file_count_of self.new) at self.new.cells }
        ensures names { self.new.names ≡ self.old.names }
        ensures event { self.new.tracker.noted.event ≡ self.old.tracker.noted.event + 1 }
        ensures settings { self.new.tracker.settings ≡ self.old.tracker.settings }
    {
        self.pump_part(file)
    }

    /// An event of a file: its writer syncs, and those that waited for that are answered. Takes memory.
    pub fn sync(&mut self, file: u64) -> Result<String, AllocError>
        requires few { self.old.tracker.noted.event < 2 ^ 64 - 1 }
        ensures ok { (s : StoreState) → IfOk result (λ text. IsDone C.File.tells (SyncOf file)
            (world_scene self.old s) (world_scene self.new s) (string_bytes text) false) }
        ensures err { (s : StoreState) → OnErr result (IsCutOff C.File.tells (SyncOf file)
            (world_scene self.old s) (world_scene self.new s)) }
        ensures placed { (at : ObjectId → ObjectState) → AreBodiesPlaced C.File.tells (file_count_of self.old) at self.old.cells
            → AreBodiesPlaced C.File.tells (file_count_of self.new) at self.new.cells }
        ensures names { self.new.names ≡ self.old.names }
        ensures event { self.new.tracker.noted.event ≡ self.old.tracker.noted.event + 1 }
        ensures settings { self.new.tracker.settings ≡ self.old.tracker.settings }
    {
        self.sync_part(file)
    }

    /// An event: a connection hangs up. None of its requests is answered any more, and nothing is written.
    pub fn hang_up(&mut self, conn: u32)
        requires few { self.old.tracker.noted.event < 2 ^ 64 - 1 }
        ensures step { (s : StoreState) → IsDone C.File.tells (HangUpOf conn) (world_scene self.old s) (world_scene self.new s) [] false }
        ensures same { (self.new.names ≡ self.old.names) × (self.new.cells ≡ self.old.cells) }
        ensures event { self.new.tracker.noted.event ≡ self.old.tracker.noted.event + 1 }
        ensures settings { self.new.tracker.settings ≡ self.old.tracker.settings }
    {
        self.tracker.hang_up(conn);
    }

    // A connection ends: none of its requests is answered any more.
    fn close_connection(&mut self, conn: u32) -> Result<String, AllocError>
        ensures ok { (operation : Operation) → HasTarget self.old operation (OnDesk (CloseConnection conn)) → (s : StoreState)
            → IfOk result (λ text. IsDone C.File.tells operation
            (world_scene self.old s) (world_scene self.new s) (string_bytes text) false) }
        ensures err { (operation : Operation) → HasTarget self.old operation (OnDesk (CloseConnection conn)) → (s : StoreState)
            → OnErr result (IsCutOff C.File.tells operation (world_scene self.old s) (world_scene self.new s)) }
        ensures same { (self.new.names ≡ self.old.names) × (self.new.cells ≡ self.old.cells) }
        ensures event { self.new.tracker.noted.event ≡ self.old.tracker.noted.event }
        ensures settings { self.new.tracker.settings ≡ self.old.tracker.settings }
    {
        self.tracker.close_connection(conn)
    }

    /// A connection ends, for what its bytes are: none of its requests is answered any more. Takes memory.
    pub fn break_connection(&mut self, conn: u32) -> Result<String, AllocError>
        ensures ok { (s : StoreState) → IfOk result (λ text. IsDone C.File.tells (Break conn)
            (world_scene self.old s) (world_scene self.new s) (string_bytes text) false) }
        ensures err { (s : StoreState) → OnErr result (IsCutOff C.File.tells (Break conn)
            (world_scene self.old s) (world_scene self.new s)) }
        ensures same { (self.new.names ≡ self.old.names) × (self.new.cells ≡ self.old.cells) }
        ensures event { self.new.tracker.noted.event ≡ self.old.tracker.noted.event }
        ensures settings { self.new.tracker.settings ≡ self.old.tracker.settings }
    {
        self.close_connection(conn)
    }

    // A request is answered at once.
    fn reply_now(&mut self, conn: u32, xid: u32, reply: &[u8]) -> Result<String, AllocError>
        ensures ok { (operation : Operation) → HasTarget self.old operation (OnDesk (Reply conn xid reply.now)) → (s : StoreState)
            → IfOk result (λ text. IsDone C.File.tells operation
            (world_scene self.old s) (world_scene self.new s) (string_bytes text) false) }
        ensures err { (operation : Operation) → HasTarget self.old operation (OnDesk (Reply conn xid reply.now)) → (s : StoreState)
            → OnErr result (IsCutOff C.File.tells operation (world_scene self.old s) (world_scene self.new s)) }
        ensures same { (self.new.names ≡ self.old.names) × (self.new.cells ≡ self.old.cells) }
        ensures event { self.new.tracker.noted.event ≡ self.old.tracker.noted.event }
        ensures settings { self.new.tracker.settings ≡ self.old.tracker.settings }
    {
        self.tracker.reply_now(conn, xid, reply)
    }

    // Memory was refused while a request was read.
    fn refuse_request(&mut self, conn: u32, xid: u32) -> Result<String, AllocError>
        ensures ok { (operation : Operation)
            → IsRequestOf (target_by_state self.old.tracker.settings self.old.names self.old.cells operation) conn xid
            → names_after operation self.old.names ≡ self.old.names → (s : StoreState)
            → IfOk result (λ text. IsDone C.File.tells operation
            (world_scene self.old s) (world_scene self.new s) (string_bytes text) false) }
        ensures err { (operation : Operation)
            → IsRequestOf (target_by_state self.old.tracker.settings self.old.names self.old.cells operation) conn xid
            → names_after operation self.old.names ≡ self.old.names → (s : StoreState)
            → OnErr result (IsCutOff C.File.tells operation (world_scene self.old s) (world_scene self.new s)) }
        ensures same { (self.new.names ≡ self.old.names) × (self.new.cells ≡ self.old.cells) }
        ensures event { self.new.tracker.noted.event ≡ self.old.tracker.noted.event }
        ensures settings { self.new.tracker.settings ≡ self.old.tracker.settings }
    {
        self.tracker.refuse_request(conn, xid)
    }

    // A WRITE of a file that isn't open.
    fn write_first(
        &mut self,
        conn: u32,
        file: u64,
        call: WriteCall,
        cluster: &mut C,
    ) -> Result<String, AllocError>
        requires closed { entry_at file self.old.cells ≡ None }
        requires home { IsBodyHome C.File.tells (C.at cluster.old (body_id file)) None }
        requires few { length call.content ≤ 1048576 }
        requires below { call.offset + length call.content < 2 ^ 63 }
        ensures ok { IfOk result (StepsTo C.File.tells (WriteFile conn call)
            (scene_at file self.old (store_state C.Cluster cluster.old)) (scene_at file self.new (store_state C.Cluster cluster.new))) }
        ensures err { OnErr result (IsActCut C.File.tells (WriteFile conn call)
            (scene_at file self.old (store_state C.Cluster cluster.old)) (scene_at file self.new (store_state C.Cluster cluster.new))) }
        ensures part { ChangesPart file self.old self.new }
        ensures home_after { IsBodyHome C.File.tells (C.at cluster.new (body_id file)) (entry_at file self.new.cells) }
        ensures others { OthersStay C.Cluster C.File.tells file cluster.old cluster.new }
        ensures losses { C.File.tells → C.losses cluster.new (body_id file) ≡ C.losses cluster.old (body_id file) }
        ensures event { self.new.tracker.noted.event ≡ self.old.tracker.noted.event }
        ensures settings { self.new.tracker.settings ≡ self.old.tracker.settings }
    {
        let lost = lost_of(&self.hulls, file);
        match self.cells.entry(file) {
            Ok(Entry::Vacant(place)) => {
                let FirstWrite { cell, text } = first_write(
                    conn,
                    file,
                    call,
                    lost,
                    &mut self.tracker,
                    cluster,
                );
                match cell {
                    Some(cell) => {
                        place.insert(cell);
                        return text;
                    }
                    None => return text,
                }
            }
            Ok(Entry::Occupied(_)) => return refuse_write(conn, call, &mut self.tracker),
            Err(_) => return refuse_write(conn, call, &mut self.tracker),
        }
    }

    fn write_part(
        &mut self,
        conn: u32,
        file: u64,
        call: WriteCall,
        cluster: &mut C,
    ) -> Result<String, AllocError>
        requires home { IsBodyHome C.File.tells (C.at cluster.old (body_id file)) (entry_at file self.old.cells) }
        requires few { length call.content ≤ 1048576 }
        requires below { call.offset + length call.content < 2 ^ 63 }
        ensures ok { IfOk result (StepsTo C.File.tells (WriteFile conn call)
            (scene_at file self.old (store_state C.Cluster cluster.old)) (scene_at file self.new (store_state C.Cluster cluster.new))) }
        ensures err { OnErr result (IsActCut C.File.tells (WriteFile conn call)
            (scene_at file self.old (store_state C.Cluster cluster.old)) (scene_at file self.new (store_state C.Cluster cluster.new))) }
        ensures part { ChangesPart file self.old self.new }
        ensures keeps { IsContextKept (entry_at file self.old.cells) (entry_at file self.new.cells) }
        ensures home_after { IsBodyHome C.File.tells (C.at cluster.new (body_id file)) (entry_at file self.new.cells) }
        ensures others { OthersStay C.Cluster C.File.tells file cluster.old cluster.new }
        ensures losses { C.File.tells → C.losses cluster.new (body_id file) ≡ C.losses cluster.old (body_id file) }
        ensures event { self.new.tracker.noted.event ≡ self.old.tracker.noted.event }
        ensures settings { self.new.tracker.settings ≡ self.old.tracker.settings }
    {
        match self.cells.get_mut(&file) {
            Some(cell) => write_cell(conn, call, cell, &mut self.tracker),
            None => self.write_first(conn, file, call, cluster),
        }
    }

    fn read_part(
        &mut self,
        conn: u32,
        file: u64,
        call: ReadCall,
        cluster: &mut C,
    ) -> Result<String, AllocError>
        requires home { IsBodyHome C.File.tells (C.at cluster.old (body_id file)) (entry_at file self.old.cells) }
        ensures ok { IfOk result (StepsTo C.File.tells (ReadFile conn call)
            (scene_at file self.old (store_state C.Cluster cluster.old)) (scene_at file self.new (store_state C.Cluster cluster.new))) }
        ensures err { OnErr result (IsActCut C.File.tells (ReadFile conn call)
            (scene_at file self.old (store_state C.Cluster cluster.old)) (scene_at file self.new (store_state C.Cluster cluster.new))) }
        ensures part { ChangesPart file self.old self.new }
        ensures keeps { IsContextKept (entry_at file self.old.cells) (entry_at file self.new.cells) }
        ensures home_after { IsBodyHome C.File.tells (C.at cluster.new (body_id file)) (entry_at file self.new.cells) }
        ensures same { C.File.tells → (q : ObjectId) → C.at cluster.new q ≡ C.at cluster.old q }
        ensures losses { C.File.tells → (q : ObjectId) → C.losses cluster.new q ≡ C.losses cluster.old q }
        ensures event { self.new.tracker.noted.event ≡ self.old.tracker.noted.event }
        ensures settings { self.new.tracker.settings ≡ self.old.tracker.settings }
    {
        match self.cells.get_mut(&file) {
            Some(cell) => read_cell(conn, call, cell, &mut self.tracker),
            None => read_closed(conn, file, call, &mut self.tracker, cluster),
        }
    }

    // A WRITE of a file in the tree.
    fn write(
        &mut self,
        conn: u32,
        file: u64,
        call: WriteCall,
        cluster: &mut C,
    ) -> Result<String, AllocError>
        requires placed { AreBodiesPlaced C.File.tells (file_count_of self.old) (C.at cluster.old) self.old.cells }
        requires in_tree { is_file_of (file_count_of self.old) file ≡ true }
        requires few { length call.content ≤ 1048576 }
        requires below { call.offset + length call.content < 2 ^ 63 }
        ensures ok { (operation : Operation) → HasTarget self.old operation (OnFile file (WriteFile conn call))
            → IfOk result (λ text. IsDone C.File.tells operation
            (world_scene_of C.Cluster self.old cluster.old) (world_scene_of C.Cluster self.new cluster.new) (string_bytes text) false) }
        ensures err { (operation : Operation) → HasTarget self.old operation (OnFile file (WriteFile conn call))
            → OnErr result (IsCutOff C.File.tells operation
            (world_scene_of C.Cluster self.old cluster.old) (world_scene_of C.Cluster self.new cluster.new)) }
        ensures placed_after { AreBodiesPlaced C.File.tells (file_count_of self.new) (C.at cluster.new) self.new.cells }
        ensures names { self.new.names ≡ self.old.names }
        ensures others { C.File.tells → ObjectsStay (store_state C.Cluster cluster.old) (store_state C.Cluster cluster.new) }
        ensures losses { C.File.tells → SameLosses (store_state C.Cluster cluster.old) (store_state C.Cluster cluster.new) }
        ensures there { C.File.tells → StaysThere (store_state C.Cluster cluster.old) (store_state C.Cluster cluster.new) }
        ensures event { self.new.tracker.noted.event ≡ self.old.tracker.noted.event }
        ensures settings { self.new.tracker.settings ≡ self.old.tracker.settings }
    {
        self.write_part(conn, file, call, cluster)
    }

    // A READ of a file in the tree.
    fn read(
        &mut self,
        conn: u32,
        file: u64,
        call: ReadCall,
        cluster: &mut C,
    ) -> Result<String, AllocError>
        requires placed { AreBodiesPlaced C.File.tells (file_count_of self.old) (C.at cluster.old) self.old.cells }
        requires in_tree { is_file_of (file_count_of self.old) file ≡ true }
        ensures ok { (operation : Operation) → HasTarget self.old operation (OnFile file (ReadFile conn call))
            → IfOk result (λ text. IsDone C.File.tells operation
            (world_scene_of C.Cluster self.old cluster.old) (world_scene_of C.Cluster self.new cluster.new) (string_bytes text) false) }
        ensures err { (operation : Operation) → HasTarget self.old operation (OnFile file (ReadFile conn call))
            → OnErr result (IsCutOff C.File.tells operation
            (world_scene_of C.Cluster self.old cluster.old) (world_scene_of C.Cluster self.new cluster.new)) }
        ensures placed_after { AreBodiesPlaced C.File.tells (file_count_of self.new) (C.at cluster.new) self.new.cells }
        ensures names { self.new.names ≡ self.old.names }
        ensures others { C.File.tells → ObjectsStay (store_state C.Cluster cluster.old) (store_state C.Cluster cluster.new) }
        ensures losses { C.File.tells → SameLosses (store_state C.Cluster cluster.old) (store_state C.Cluster cluster.new) }
        ensures there { C.File.tells → StaysThere (store_state C.Cluster cluster.old) (store_state C.Cluster cluster.new) }
        ensures event { self.new.tracker.noted.event ≡ self.old.tracker.noted.event }
        ensures settings { self.new.tracker.settings ≡ self.old.tracker.settings }
    {
        self.read_part(conn, file, call, cluster)
    }

    fn commit_part(&mut self, conn: u32, file: u64, call: CommitCall) -> Result<String, AllocError>
        ensures ok { (s : Store) → IfOk result (StepsTo C.File.tells (CommitFile conn call)
            (scene (state_at file self.old) s) (scene (state_at file self.new) s)) }
        ensures err { (s : Store) → OnErr result (IsActCut C.File.tells (CommitFile conn call)
            (scene (state_at file self.old) s) (scene (state_at file self.new) s)) }
        ensures part { ChangesPart file self.old self.new }
        ensures same { SameFile (entry_at file self.old.cells) (entry_at file self.new.cells) }
        ensures event { self.new.tracker.noted.event ≡ self.old.tracker.noted.event }
        ensures settings { self.new.tracker.settings ≡ self.old.tracker.settings }
    {
        match self.cells.get_mut(&file) {
            Some(cell) => commit_cell(conn, call, cell, &mut self.tracker),
            None => commit_closed(conn, call, lost_of(&self.hulls, file), &mut self.tracker),
        }
    }

    // A COMMIT of a file in the tree.
    fn commit(&mut self, conn: u32, file: u64, call: CommitCall) -> Result<String, AllocError>
        ensures ok { (operation : Operation) → HasTarget self.old operation (OnFile file (CommitFile conn call)) → (s : StoreState)
            → IfOk result (λ text. IsDone C.File.tells operation
            (world_scene self.old s) (world_scene self.new s) (string_bytes text) false) }
        ensures err { (operation : Operation) → HasTarget self.old operation (OnFile file (CommitFile conn call)) → (s : StoreState)
            → OnErr result (IsCutOff C.File.tells operation (world_scene self.old s) (world_scene self.new s)) }
        ensures placed { (at : ObjectId → ObjectState) → AreBodiesPlaced C.File.tells (file_count_of self.old) at self.old.cells
            → AreBodiesPlaced C.File.tells (file_count_of self.new) at self.new.cells }
        ensures names { self.new.names ≡ self.old.names }
        ensures event { self.new.tracker.noted.event ≡ self.old.tracker.noted.event }
        ensures settings { self.new.tracker.settings ≡ self.old.tracker.settings }
    {
        self.commit_part(conn, file, call)
    }

    // Does what a request asks for.
    fn serve_request(
        &mut self,
        conn: u32,
        request: Request,
        cluster: &mut C,
    ) -> Result<Served, AllocError>
        requires placed { AreBodiesPlaced C.File.tells (file_count_of self.old) (C.at cluster.old) self.old.cells }
        requires fits { IsFitting (file_count_of self.old) request }
        ensures ok { (operation : Operation) → HasTarget self.old operation (request_target conn request)
            → IfOk result (λ s. IsServed C.File.tells s operation (is_ending request)
            (world_scene_of C.Cluster self.old cluster.old) (world_scene_of C.Cluster self.new cluster.new)) }
        ensures err { (operation : Operation) → HasTarget self.old operation (request_target conn request)
            → OnErr result (IsCutOff C.File.tells operation
            (world_scene_of C.Cluster self.old cluster.old) (world_scene_of C.Cluster self.new cluster.new)) }
        ensures placed_after { AreBodiesPlaced C.File.tells (file_count_of self.new) (C.at cluster.new) self.new.cells }
        ensures names { self.new.names ≡ self.old.names }
        ensures others { C.File.tells → ObjectsStay (store_state C.Cluster cluster.old) (store_state C.Cluster cluster.new) }
        ensures losses { C.File.tells → SameLosses (store_state C.Cluster cluster.old) (store_state C.Cluster cluster.new) }
        ensures there { C.File.tells → StaysThere (store_state C.Cluster cluster.old) (store_state C.Cluster cluster.new) }
        ensures event { self.new.tracker.noted.event ≡ self.old.tracker.noted.event }
        ensures settings { self.new.tracker.settings ≡ self.old.tracker.settings }
    {
        match request {
            Request::Close => {
                let text = self.close_connection(conn)?;
                Ok(Served { text, ended: true })
            }
            Request::Reply { xid, reply } => {
                let text = self.reply_now(conn, xid, reply.as_slice())?;
                Ok(Served { text, ended: false })
            }
            Request::Read(file, call) => {
                let text = self.read(conn, file, call, cluster)?;
                Ok(Served { text, ended: false })
            }
            Request::Write(file, call) => {
                let text = self.write(conn, file, call, cluster)?;
                Ok(Served { text, ended: false })
            }
            Request::Commit(file, call) => {
                let text = self.commit(conn, file, call)?;
                Ok(Served { text, ended: false })
            }
        }
    }

    // Whether a file has a context, or one more may be opened.
    fn may_open(&self, file: u64) -> bool
        ensures { result ≡ may_open_of self.now.tracker.settings.contexts file self.now.cells }
    {
        let most = self.tracker.config().contexts;
        self.cells.contains_key(&file) || (self.cells.len() as u64) < most
    }

    // A request as it is served: a WRITE that finds no room for a context is answered at once.
    fn admit_request(&self, request: Request) -> Result<Request, Refused>
        ensures target { IfOk result (λ r. (conn : ℕ)
            → request_target conn r ≡ opening_target self.now.tracker.settings.contexts self.now.cells (request_target conn request)) }
        ensures fits { IfOk result (λ r. (files : ℕ) → IsFitting files request → IsFitting files r) }
        ensures ending { IfOk result (λ r. is_ending r ≡ is_ending request) }
        ensures refused { IfErr result (λ e. (conn : ℕ)
            → IsRequestOf (opening_target self.now.tracker.settings.contexts self.now.cells (request_target conn request)) conn e.xid) }
        ensures goes_on { OnErr result (is_ending request ≡ false) }
    {
        match request {
            Request::Write(file, call) => {
                if self.may_open(file) {
                    return Ok(Request::Write(file, call));
                }
                busy_request(self.alloc, call.xid)
            }
            request => Ok(request),
        }
    }

    // What a message of a connection asks for, as it is served.
    fn request_of(&self, message: Bytes) -> Result<Request, Refused>
        ensures target { IfOk result (λ r. (conn : ℕ) → HasTarget self.now (Serve conn message) (request_target conn r)) }
        ensures fits { IfOk result (λ r. IsFitting (file_count_of self.now) r) }
        ensures ending { IfOk result (λ r. is_ending r ≡ ends_connection message) }
        ensures refused { IfErr result (λ e. (conn : ℕ)
            → IsRequestOf (target_by_state self.now.tracker.settings self.now.names self.now.cells (Serve conn message)) conn e.xid) }
        ensures goes_on { OnErr result (ends_connection message ≡ false) }
    {
        match read_request(
            self.alloc,
            self.tracker.config(),
            self.file_count(),
            message,
        ) {
            Ok(request) => self.admit_request(request),
            Err(refused) => Err(refused),
        }
    }

    /// Does what a message of a connection asks for. Takes memory.
    pub fn serve(
        &mut self,
        conn: u32,
        message: Bytes,
        cluster: &mut C,
    ) -> Result<Served, AllocError>
        requires placed { AreBodiesPlaced C.File.tells (file_count_of self.old) (C.at cluster.old) self.old.cells }
        ensures ok { IfOk result (λ s. IsServed C.File.tells s (Serve conn message) (ends_connection message)
            (world_scene_of C.Cluster self.old cluster.old) (world_scene_of C.Cluster self.new cluster.new)) }
        ensures err { OnErr result (IsCutOff C.File.tells (Serve conn message)
            (world_scene_of C.Cluster self.old cluster.old) (world_scene_of C.Cluster self.new cluster.new)) }
        ensures placed_after { AreBodiesPlaced C.File.tells (file_count_of self.new) (C.at cluster.new) self.new.cells }
        ensures names { self.new.names ≡ self.old.names }
        ensures others { C.File.tells → ObjectsStay (store_state C.Cluster cluster.old) (store_state C.Cluster cluster.new) }
        ensures losses { C.File.tells → SameLosses (store_state C.Cluster cluster.old) (store_state C.Cluster cluster.new) }
        ensures there { C.File.tells → StaysThere (store_state C.Cluster cluster.old) (store_state C.Cluster cluster.new) }
        ensures event { self.new.tracker.noted.event ≡ self.old.tracker.noted.event }
        ensures settings { self.new.tracker.settings ≡ self.old.tracker.settings }
    {
        match self.request_of(message) {
            Ok(request) => self.serve_request(conn, request, cluster),
            Err(refused) => {
                let text = self.refuse_request(conn, refused.xid)?;
                Ok(Served { text, ended: false })
            }
        }
    }

    /// Gives the bodies that were taken back to the store, and writes the histories of the contexts by rising number.
    pub fn stop<K: Sink>(self, sink: &mut K, cluster: &mut C) -> Result<(), WriteFault>
        requires safe { AreBodiesSafe C.File.tells (C.at cluster.old) self.cells }
        ensures histories { WritesHistories result self.cells (K.held sink.old) (K.held sink.new) }
        ensures bodies { C.File.tells → (k : ℕ) → bytes_of (C.at cluster.new (body_id k)) ≡ bodies_at (C.at cluster.old) self.cells k }
        ensures home { C.File.tells → (k : ℕ) → IsAway (C.at cluster.new (body_id k)) → ⊥ }
        ensures others { C.File.tells → ObjectsStay (store_state C.Cluster cluster.old) (store_state C.Cluster cluster.new) }
        ensures losses { C.File.tells → SameLosses (store_state C.Cluster cluster.old) (store_state C.Cluster cluster.new) }
        ensures counts { GivesAllBack self.cells (store_counts C.Cluster cluster.old) (store_counts C.Cluster cluster.new) }
        ensures later { K.count sink.old ≤ K.count sink.new }
        ensures cause { OnErr result (Rose (K.count sink.old) (K.count sink.new)) }
    {
        let mut cells = self.cells;
        let mut written = Ok(());
        while let Some((file, cell)) = cells.pop_first() {
            written = close_cell(file, cell, written, sink, cluster);
        }
        written
    }
}
