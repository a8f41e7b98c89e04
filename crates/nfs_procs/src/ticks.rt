// A tick: the time goes on, and each open file is judged.
ghost use Rattle.std.specs.Prelude.{◌≡◌, ◌<◌, ◌≤◌, ◌+◌, ◌-◌, ◌^◌, ℕ, true, false, None, Some, IfOk, IsErr, OnErr, is_some, string_bytes, ◌++◌, ◌==◌, [], length};
ghost use Rattle.append_store.specs.State.{bytes_of};
ghost use Rattle.file_cell.specs.State.{CellState};
ghost use Rattle.file_calls.specs.Acts.{TickFile};
ghost use Rattle.file_calls.specs.Counts.{file_counts};
ghost use Rattle.file_calls.specs.Outside.{body_id, store_counts, CarriesCounts, IsBodyHome, IsStep, OthersStay};
ghost use Rattle.file_calls.specs.PartSteps.{SameTerms};
ghost use Rattle.file_calls.specs.Terms.{closed_hull};
ghost use Rattle.file_calls.specs.Ticks.{IsClosedText, Makes};
ghost use Rattle.nfs_procs.specs.World.{TickBy, TickOf, entry_at, open_files as open_files_of, without_entry};
ghost use Rattle.nfs_procs.specs.Contexts.{file_count as file_count_of, has_place, lost_at, other_cells, scene_at, store_state};
ghost use Rattle.nfs_procs.specs.Contexts.{world_scene_of, AreBodiesPlaced, IsCutOff, IsDone, ObjectsStay, SameLosses, StaysThere};
ghost use Rattle.nfs_procs.specs.Ticks.{ChangesFile, HavePlaces, TicksFront};

use crate::World;
use crate::hulls::{keep_lost, make_places};
use append_store::Cluster;
use file_calls::{ClosedFile, Visit, end_cell, tick_cell};
use std::alloc::AllocError;

// A text behind another, where both were made.
fn joined(
    text: Result<String, AllocError>,
    more: Result<String, AllocError>,
) -> Result<String, AllocError>
    ensures text { IfOk result (λ all. IfOk text (λ before. IfOk more (λ behind. string_bytes all ≡ string_bytes before ++ string_bytes behind))) }
    ensures first { OnErr text (IsErr result) }
    ensures second { OnErr more (IsErr result) }
{
    let mut text = text?;
    text.push_str(more?.as_str())?;
    Ok(text)
}

impl<C: Cluster> World<C> {
    // The numbers of the files that have a context, rising.
    fn open_files(&self) -> Result<Vec<u64>, AllocError>
        ensures { IfOk result (λ files. files.items ≡ open_files_of self.now.cells) }
    {
        self.cells.keys().copied().collect(self.alloc)
    }

    // The context of a file ends, which is synced.
    fn end_context(&mut self, file: u64, cluster: &mut C) -> Result<String, AllocError>
        requires open { is_some (entry_at file self.old.cells) ≡ true }
        requires place { has_place file self.old.hulls ≡ true }
        requires home { IsBodyHome C.File.tells (C.at cluster.old (body_id file)) (entry_at file self.old.cells) }
        ensures lost { (c : CellState) → entry_at file self.old.cells ≡ Some c
            → lost_at file self.new.hulls ≡ closed_hull c.side.held.hull c.writer.stored }
        ensures history { (c : CellState) → entry_at file self.old.cells ≡ Some c → Makes result (IsClosedText file c) }
        ensures bytes { (c : CellState) → entry_at file self.old.cells ≡ Some c
            → C.File.tells → bytes_of (C.at cluster.new (body_id file)) ≡ c.file.content }
        ensures counts { (c : CellState) → entry_at file self.old.cells ≡ Some c → CarriesCounts
            (store_counts C.Cluster cluster.old) (file_counts c.file) (store_counts C.Cluster cluster.new) }
        ensures cells { self.new.cells ≡ without_entry file self.old.cells }
        ensures gone { entry_at file self.new.cells ≡ None }
        ensures rest { other_cells file self.new.cells ≡ other_cells file self.old.cells }
        ensures hulls { (j : ℕ) → (j == file) ≡ false → lost_at j self.new.hulls ≡ lost_at j self.old.hulls }
        ensures places { (j : ℕ) → has_place j self.new.hulls ≡ has_place j self.old.hulls }
        ensures same { (self.new.names ≡ self.old.names) × (self.new.tracker ≡ self.old.tracker) }
        ensures home_after { IsBodyHome C.File.tells (C.at cluster.new (body_id file)) None }
        ensures others { OthersStay C.Cluster C.File.tells file cluster.old cluster.new }
        ensures losses { C.File.tells → C.losses cluster.new (body_id file) ≡ C.losses cluster.old (body_id file) }
    {
        let Some(cell) = self.cells.remove(&file) else {
            unreachable!()
        };
        let ClosedFile { lost, text } = end_cell(self.alloc, file, cell, cluster);
        keep_lost(&mut self.hulls, file, lost);
        text
    }

    fn tick_part(&mut self, file: u64, cluster: &mut C) -> Result<String, AllocError>
        requires place { has_place file self.old.hulls ≡ true }
        requires home { is_some (entry_at file self.old.cells) ≡ true
            → IsBodyHome C.File.tells (C.at cluster.old (body_id file)) (entry_at file self.old.cells) }
        requires noted { 0 < self.old.tracker.noted.room }
        ensures step { Makes result (λ text. IsStep C.File.tells (TickFile file)
            (scene_at file self.old (store_state C.Cluster cluster.old)) (scene_at file self.new (store_state C.Cluster cluster.new)) text false) }
        ensures part { ChangesFile file self.old self.new }
        ensures rest { other_cells file self.new.cells ≡ other_cells file self.old.cells }
        ensures home_after { is_some (entry_at file self.old.cells) ≡ true
            → IsBodyHome C.File.tells (C.at cluster.new (body_id file)) (entry_at file self.new.cells) }
        ensures closed { entry_at file self.old.cells ≡ None → (entry_at file self.new.cells ≡ None) × (cluster.new ≡ cluster.old) }
        ensures others { OthersStay C.Cluster C.File.tells file cluster.old cluster.new }
        ensures losses { C.File.tells → C.losses cluster.new (body_id file) ≡ C.losses cluster.old (body_id file) }
        ensures room { self.old.tracker.noted.room ≤ self.new.tracker.noted.room + 1 }
        ensures event { self.new.tracker.noted.event ≡ self.old.tracker.noted.event }
        ensures terms { SameTerms self.old.tracker self.new.tracker }
    {
        match self.cells.get_mut(&file) {
            Some(cell) => match tick_cell(cell, &mut self.tracker) {
                Visit::Stays(text) => text,
                Visit::Closes => self.end_context(file, cluster),
            },
            None => Ok(String::new(self.alloc)),
        }
    }

    // The tick comes to a file.
    fn tick_file(&mut self, file: u64, cluster: &mut C) -> Result<String, AllocError>
        requires placed { AreBodiesPlaced C.File.tells (file_count_of self.old) (C.at cluster.old) self.old.cells }
        requires place { has_place file self.old.hulls ≡ true }
        requires noted { 0 < self.old.tracker.noted.room }
        ensures done { Makes result (λ text. IsDone C.File.tells (TickOf file)
            (world_scene_of C.Cluster self.old cluster.old) (world_scene_of C.Cluster self.new cluster.new) text false) }
        ensures placed_after { AreBodiesPlaced C.File.tells (file_count_of self.new) (C.at cluster.new) self.new.cells }
        ensures places { (j : ℕ) → has_place j self.new.hulls ≡ has_place j self.old.hulls }
        ensures names { self.new.names ≡ self.old.names }
        ensures others { C.File.tells → ObjectsStay (store_state C.Cluster cluster.old) (store_state C.Cluster cluster.new) }
        ensures losses { C.File.tells → SameLosses (store_state C.Cluster cluster.old) (store_state C.Cluster cluster.new) }
        ensures there { C.File.tells → StaysThere (store_state C.Cluster cluster.old) (store_state C.Cluster cluster.new) }
        ensures room { self.old.tracker.noted.room ≤ self.new.tracker.noted.room + 1 }
        ensures event { self.new.tracker.noted.event ≡ self.old.tracker.noted.event }
        ensures settings { self.new.tracker.settings ≡ self.old.tracker.settings }
    {
        self.tick_part(file, cluster)
    }

    // The tick comes to these files.
    fn tick_files(&mut self, files: Vec<u64>, cluster: &mut C) -> Result<String, AllocError>
        requires placed { AreBodiesPlaced C.File.tells (file_count_of self.old) (C.at cluster.old) self.old.cells }
        requires places { HavePlaces files.items self.old }
        requires noted { length files.items ≤ self.old.tracker.noted.room }
        ensures done { TicksFront C.File.tells files.items
            (world_scene_of C.Cluster self.old cluster.old) result (world_scene_of C.Cluster self.new cluster.new) [] }
        ensures placed_after { AreBodiesPlaced C.File.tells (file_count_of self.new) (C.at cluster.new) self.new.cells }
        ensures names { self.new.names ≡ self.old.names }
        ensures others { C.File.tells → ObjectsStay (store_state C.Cluster cluster.old) (store_state C.Cluster cluster.new) }
        ensures losses { C.File.tells → SameLosses (store_state C.Cluster cluster.old) (store_state C.Cluster cluster.new) }
        ensures there { C.File.tells → StaysThere (store_state C.Cluster cluster.old) (store_state C.Cluster cluster.new) }
        ensures event { self.new.tracker.noted.event ≡ self.old.tracker.noted.event }
        ensures settings { self.new.tracker.settings ≡ self.old.tracker.settings }
    {
        let mut text = Ok(String::new(self.alloc));
        for file in files {
            text = joined(text, self.tick_file(file, cluster));
        }
        text
    }

    /// An event: so many milliseconds are gone, and the tick comes to each open file, by rising number. A file that is to be closed
    /// is synced and closed, and its history is written; it stays open where its sync failed. Takes memory: where that is refused
    /// before the tick came to a file, no file is changed, and else all is done but that the text isn't made.
    pub fn tick(&mut self, milliseconds: u32, cluster: &mut C) -> Result<String, AllocError>
        requires placed { AreBodiesPlaced C.File.tells (file_count_of self.old) (C.at cluster.old) self.old.cells }
        requires few { self.old.tracker.noted.event < 2 ^ 64 - 1 }
        ensures ok { IfOk result (λ text. IsDone C.File.tells (TickBy milliseconds)
            (world_scene_of C.Cluster self.old cluster.old) (world_scene_of C.Cluster self.new cluster.new) (string_bytes text) false) }
        ensures err { OnErr result (IsCutOff C.File.tells (TickBy milliseconds)
            (world_scene_of C.Cluster self.old cluster.old) (world_scene_of C.Cluster self.new cluster.new)) }
        ensures placed_after { AreBodiesPlaced C.File.tells (file_count_of self.new) (C.at cluster.new) self.new.cells }
        ensures names { self.new.names ≡ self.old.names }
        ensures others { C.File.tells → ObjectsStay (store_state C.Cluster cluster.old) (store_state C.Cluster cluster.new) }
        ensures losses { C.File.tells → SameLosses (store_state C.Cluster cluster.old) (store_state C.Cluster cluster.new) }
        ensures there { C.File.tells → StaysThere (store_state C.Cluster cluster.old) (store_state C.Cluster cluster.new) }
        ensures event { self.new.tracker.noted.event ≡ self.old.tracker.noted.event + 1 }
        ensures settings { self.new.tracker.settings ≡ self.old.tracker.settings }
    {
        self.tracker.begin_tick(milliseconds);
        let files = self.open_files()?;
        make_places(&mut self.hulls, &files)?;
        self.tracker.reserve(files.len())?;
        self.tick_files(files, cluster)
    }
}
