// The writer side of an open file.
ghost use Rattle.std.specs.Prelude.{◌≡◌, ◌<◌, [], ◌∷◌, ◌++◌, length, nat_lt, not};
ghost use Rattle.gw_model.specs.Bounds.{max_waiting};
ghost use Rattle.gw_model.specs.File.{is_empty};
ghost use Rattle.admit.specs.Calls.{news_of};
ghost use Rattle.admit.specs.GivenUp.{Hands};
ghost use Rattle.writeback.specs.Steps.{IsDurable, Leaves, sync_call, with_calls};
ghost use Rattle.file_cell.specs.Steps.{SideSteps, synced_side};
ghost use Rattle.file_cell.specs.Rounds.{DoesNext};

use admit::{Failed, News};
use append_store::AppendFile;
use gw_model::Trace;
use job_line::LineOut;
use std::marker::Model;
use tickets::Answer;
use writeback::{Synced, Writer};

/// What a write step did.
#[derive(Clone, Copy, Debug, Drop, PartialEq, Eq)]
pub enum Stepped {
    /// Nothing: as many tickets wait for a sync as may.
    SyncFirst,
    /// Nothing: no job is in the line.
    Nothing,
    /// It did the first job of the line. The answer is left.
    Did,
}

/// What came of the next job.
#[derive(Debug, Drop)]
pub(crate) enum Turned {
    /// It wasn't taken: as many tickets wait for a sync as may.
    SyncFirst,
    /// None was known.
    Nothing,
    /// It was done, with this answer, unless its ticket waits for a sync.
    Did(Option<Answer>),
}

/// The writer side of an open file, with the end of its line that takes: what may lie under a lock of its own.
#[derive(Drop)]
pub struct WriterSide<F: AppendFile> {
    pub(crate) writer: Writer<F>,
    pub(crate) output: LineOut,
    // What the last turn answered.
    pub(crate) turned: Option<Answer>,
}

impl<F: AppendFile> Model for WriterSide<F> {
    ghost use Rattle.tickets.specs.Answers.{ArePlain};
    ghost use Rattle.file_cell.specs.State.{IsWithinTaken, WriterSideState, writer_side_of};
    ghost use Rattle.file_cell.specs.Stored.{IsWritten};

    ghost Value = { WriterSideState };

    ghost view = { λ w. writer_side_of w.writer w.turned w.output };

    ghost invariant = { λ w. IsWithinTaken w.writer.writer w.output
        × ArePlain w.turned
        × IsWritten F.tells w.writer.writer w.writer.file.content w.output };
}

impl<F: AppendFile> WriterSide<F> {
    // Does the next job that is known, where there is room for its ticket, and hands its answer out.
    pub(crate) fn do_next(&mut self, trace: &mut Trace) -> Turned
        requires none_left { self.old.left ≡ [] }
        requires noted { 0 < trace.old.room }
        ensures step { DoesNext F.tells result self.old self.new trace.old trace.new }
    {
        if !self.writer.room() {
            return Turned::SyncFirst;
        }
        let Some(job) = self.output.take() else {
            return Turned::Nothing;
        };
        Turned::Did(self.writer.turn(job, trace))
    }

    /// Does the next job that is known, where there is room for its ticket. The trace has room for a note. Takes memory for a
    /// READ alone.
    pub fn write_step(&mut self, trace: &mut Trace) -> Stepped
        requires none_left { self.old.left ≡ [] }
        requires noted { 0 < trace.old.room }
        ensures step { SideSteps F.tells result self.old self.new trace.old trace.new }
    {
        match self.do_next(trace) {
            Turned::SyncFirst => Stepped::SyncFirst,
            Turned::Nothing => Stepped::Nothing,
            Turned::Did(answer) => {
                self.turned = answer;
                Stepped::Did
            }
        }
    }

    /// Calls hsync, by which those that wait for a sync are answered: their answers are left. The trace has room for a note.
    /// Takes no memory.
    pub fn sync_step(&mut self, trace: &mut Trace) -> Synced
        requires none_left { self.old.left ≡ [] }
        requires noted { 0 < trace.old.room }
        ensures step { self.new ≡ synced_side result self.new.file self.old }
        ensures notes { trace.new ≡ with_calls (sync_call result ∷ []) trace.old }
        ensures file { Leaves F.tells [] (sync_call result ∷ []) self.old.file self.new.file }
        ensures durable { IsDurable F.tells result self.new.file }
    {
        self.writer.sync(trace)
    }

    /// What is heard of the writer.
    pub fn news(&self) -> News
        ensures { news_of result ≡ self.now.writer.failed }
    {
        let failed = self.writer.failed().map(|failed| Failed {
            stored: failed.stored,
            kept: failed.kept,
        });
        News { failed }
    }

    /// How many marks its end of the line has taken.
    pub fn begun(&self) -> u64
        ensures { result ≡ self.now.output.begun }
    {
        self.output.begun()
    }

    /// Whether fewer than 1,024 tickets wait for a sync.
    pub fn room(&self) -> bool
        ensures { result ≡ nat_lt (length self.now.writer.owed) max_waiting }
    {
        self.writer.room()
    }

    /// How many tickets wait for a sync.
    pub fn waiting(&self) -> usize
        ensures { result ≡ length self.now.writer.owed }
    {
        self.writer.waiting()
    }

    /// Whether a ticket waits for a sync.
    #[tactic(auto, using(crate::proofs::Cells::empty_is))]
    pub fn owes(&self) -> bool
        ensures { result ≡ not (is_empty self.now.writer.owed) }
    {
        self.writer.waiting() != 0
    }

    /// The next answer that a step left: that of a turn, then those of a sync. Takes no memory.
    pub fn next_answer(&mut self) -> Option<Answer>
        ensures hands { Hands result self.old.left self.new.left }
        ensures rest { self.new ≡ record self.old { left = self.new.left } }
    {
        if let Some(answer) = self.turned.take() {
            return Some(answer);
        }
        self.writer.next_answer()
    }
}
