// A tick of an open file, and what is left of a file that it closes.
ghost use Rattle.std.specs.Prelude.{◌≡◌, ◌<◌, ◌≤◌, ◌+◌, ℕ, [], None, Some, IfOk, OnOk, OnErr, ◌++◌, string_bytes};
ghost use Rattle.append_store.specs.State.{Lent, bytes_of};
ghost use Rattle.file_cell.specs.History.{ended_history_text};
ghost use Rattle.file_cell.specs.declared.history.Why.TheVariants.{Closed as WhyClosed};
ghost use Rattle.file_calls.specs.Counts.{file_counts};
ghost use Rattle.file_calls.specs.Outside.{body_id, store_counts, CarriesCounts, IsBodyHome, OthersStay};
ghost use Rattle.file_calls.specs.PartSteps.{SameSettings, SameTerms};
ghost use Rattle.file_calls.specs.Terms.{closed_hull};
ghost use Rattle.file_calls.specs.Ticks.{IsClosedText, IsVisit, Makes};

use crate::answers::send_left;
use crate::hull::ClosedHull;
use crate::tracker::RequestTracker;
use append_store::{AppendFile, Cluster};
use file_cell::{Closed, Ended, FileCell, Ticked, Why};
use gw_model::ObjectId;
use gw_outside::{Sink, WriteFault};
use range_map::{PendingMap, TreeMap};
use std::alloc::{AllocError, Global};
use writeback::Synced;

/// What a tick came to for an open file.
#[derive(Drop)]
pub enum Visit {
    /// The file stays open, and this is written.
    Stays(Result<String, AllocError>),
    /// The file is synced, and its parts are to be given back.
    Closes,
}

/// The tick comes to an open file, at the moment that stands. Where it wasn't used for the time that its limits give, its pending
/// writes and waiting COMMITs are given up; where it is to be closed, it hears of its writer and syncs, and stays open where that
/// failed. Takes memory for the text alone: all is done also where that is refused.
pub fn tick_cell<F: AppendFile, M: PendingMap>(
    cell: &mut FileCell<F, M>,
    tracker: &mut RequestTracker,
) -> Visit
    requires none_left { cell.old.left ≡ [] }
    requires limits { cell.old.limits ≡ tracker.old.settings.limits }
    requires noted { 0 < tracker.old.noted.room }
    ensures visit { IsVisit F.tells result cell.old tracker.old cell.new tracker.new }
    ensures none_left { cell.new.left ≡ [] }
    ensures same { SameSettings cell.old cell.new }
    ensures room { tracker.old.noted.room ≤ tracker.new.noted.room + 1 }
    ensures event { tracker.new.noted.event ≡ tracker.old.noted.event }
    ensures terms { SameTerms tracker.old tracker.new }
{
    match cell.tick(tracker.moment) {
        Ticked::Nothing => Visit::Stays(Ok(String::new(tracker.alloc))),
        Ticked::GaveUp => Visit::Stays(send_left(
            tracker.alloc,
            &mut tracker.desk,
            cell,
            Ok(String::new(tracker.alloc)),
        )),
        Ticked::Close => match cell.close_step(&mut tracker.trace) {
            Synced::Done => Visit::Closes,
            Synced::Failed => Visit::Stays(Ok(String::new(tracker.alloc))),
        },
    }
}

// A text that a history is written into. It fails for want of memory alone, since a history is ASCII.
#[derive(Drop)]
struct TextSink {
    text: String,
    refusals: u64,
}

// Puts bytes of a text behind others.
fn push_bytes(text: &mut String, bytes: &[u8]) -> Result<(), WriteFault>
    ensures ok { OnOk result (string_bytes text.new ≡ string_bytes text.old ++ bytes.now) }
    ensures err { OnErr result (string_bytes text.new ≡ string_bytes text.old) }
{
    match std::str::from_utf8(bytes) {
        Ok(piece) => text.push_str(piece).map_err(|_| WriteFault),
        Err(_) => Err(WriteFault),
    }
}

impl Sink for TextSink {
    ghost held = { λ s. Some (string_bytes s.text) };

    ghost count = { λ s. s.refusals };

    fn write(&mut self, bytes: &[u8]) -> Result<usize, WriteFault> {
        match push_bytes(&mut self.text, bytes) {
            Ok(()) => Ok(bytes.len()),
            Err(fault) => {
                self.refusals = self.refusals.saturating_add(1);
                Err(fault)
            }
        }
    }

    fn faults(&self) -> u64 {
        self.refusals
    }
}

// The history of a closed file as text. Takes memory.
fn closed_text(alloc: Global, ended: &Ended) -> Result<String, AllocError>
    ensures { IfOk result (λ text. string_bytes text ≡ ended_history_text ended.now WhyClosed) }
{
    let mut sink = TextSink {
        text: String::new(alloc),
        refusals: 0,
    };
    match ended.write_history(&mut sink, Why::Closed) {
        Ok(()) => Ok(sink.text),
        Err(_) => Err(AllocError),
    }
}

/// What is left of a file that was closed.
#[derive(Drop)]
pub struct ClosedFile {
    /// What was lost of it.
    pub lost: Option<ClosedHull>,
    /// Its history.
    pub text: Result<String, AllocError>,
}

/// Gives the body of a context that was closed back to the store. Takes memory for the text of its history alone: all is done also
/// where that is refused.
pub fn end_cell<C: Cluster>(
    alloc: Global,
    file: u64,
    cell: FileCell<C::File, TreeMap>,
    cluster: &mut C,
) -> ClosedFile
    requires none_left { cell.left ≡ [] }
    requires id { cell.id.0 ≡ file }
    requires out { C.File.tells → C.at cluster.old (body_id file) ≡ Lent cell.file.mark }
    ensures lost { result.lost ≡ closed_hull cell.side.held.hull cell.writer.stored }
    ensures history { Makes result.text (IsClosedText file cell) }
    ensures bytes { C.File.tells → bytes_of (C.at cluster.new (body_id file)) ≡ cell.file.content }
    ensures home { IsBodyHome C.File.tells (C.at cluster.new (body_id file)) None }
    ensures others { OthersStay C.Cluster C.File.tells file cluster.old cluster.new }
    ensures losses { C.File.tells → C.losses cluster.new (body_id file) ≡ C.losses cluster.old (body_id file) }
    ensures counts { CarriesCounts (store_counts C.Cluster cluster.old) (file_counts cell.file) (store_counts C.Cluster cluster.new) }
{
    let Closed {
        body,
        ended,
        hull,
        stored,
        ..
    } = cell.into_parts();
    cluster.give_file(ObjectId::Body { file, version: 1 }, body);
    ClosedFile {
        lost: ClosedHull::of(hull, stored),
        text: closed_text(alloc, &ended),
    }
}
