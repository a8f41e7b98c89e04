// The context of one open file.
ghost use Rattle.std.specs.Prelude.{◌≡◌, ◌+◌, ◌<◌, ◌-◌, ◌≤◌, ◌^◌, [], ◌∷◌, IfErr, IfOk, length, not, true};
ghost use Rattle.gw_model.specs.Bounds.{end_limit, max_transfer};
ghost use Rattle.gw_model.specs.Ending.{EndReason, history_of, tick_judgement};
ghost use Rattle.gw_model.specs.File.{File, is_empty, is_stale};
ghost use Rattle.gw_model.specs.Sides.{side_pump_step};
ghost use Rattle.admit.specs.GivenUp.{Hands};
ghost use Rattle.admit.specs.Line.{GoesOn, next_jobs};
ghost use Rattle.job_line.specs.Ends.{IsOneContext, jobs_known, jobs_sent, jobs_taken, line_slots};
ghost use Rattle.writeback.specs.State.{file_seen};
ghost use Rattle.writeback.specs.Steps.{IsDurable, Leaves, plain_call, sync_call, with_calls};
ghost use Rattle.writeback.specs.declared.owed.Synced.TheVariants.{Failed};
ghost use Rattle.file_cell.specs.State.{HasHeard};
ghost use Rattle.file_cell.specs.Files.{CellCommits, CellFetches, CellPumps, CellTicks, CellWrites, ClosesFor, StandsFor, SyncsFor};
ghost use Rattle.file_cell.specs.History.{history_of_ended};
ghost use Rattle.file_cell.specs.Steps.{CellIsPumped, CellTellsCommit, CellTellsRead, CellTellsWrite, CoversDurable, IsBack, IsClosed, IsEnded, IsJustOpened, IsLineBack, IsLooked, IsStepped, counted_admit, closing_cell, is_cell_idle, pumped_cell, synced_cell, ticked_cell, ticked_of};

use crate::admit_side::{AdmitSide, Ticked};
use crate::closed::{Closed, Ended};
use crate::writer_side::{Stepped, WriterSide};
use admit::{Admit, CommitReq, Pumped, ReadReq, Verdict, WriteReq};
use append_store::AppendFile;
use gw_model::{FileId, Hull, Limits, Trace};
use job_line::{LineIn, LineOut, begin};
use range_map::PendingMap;
use std::alloc::Global;
use std::marker::Model;
use tickets::Answer;
use writeback::{Synced, Writer};

/// The context of one open file: its admission side and its writer side, each with its end of the line between them.
#[derive(Drop)]
pub struct FileCell<F: AppendFile, M: PendingMap> {
    pub(crate) admit: AdmitSide<M>,
    pub(crate) writer: WriterSide<F>,
}

impl<F: AppendFile, M: PendingMap> Model for FileCell<F, M> {
    ghost use Rattle.file_cell.specs.State.{CellState, IsJoined, cell_of};

    ghost Value = { CellState };

    ghost view = { λ c. cell_of c.admit c.writer };

    ghost invariant = { λ c. IsJoined c.admit c.writer };
}

// Both ends of the line look anew. After it the admission side holds as sent just what is to be taken.
pub(crate) fn look_beside<F: AppendFile, M: PendingMap>(
    admit: &mut AdmitSide<M>,
    writer: &mut WriterSide<F>,
)
    requires { IsOneContext admit.old.admit.line writer.old.output }
    ensures looked { IsLooked admit.old.admit.line writer.old.output admit.new.admit.line writer.new.output }
    ensures admit { admit.new ≡ record admit.old { admit = counted_admit admit.new.admit.line writer.new.output admit.old.admit } }
    ensures writer { writer.new ≡ record writer.old { output = writer.new.output } }
    ensures held { HasHeard admit.old writer.old → admit.old.admit.side.held.line ≡ next_jobs writer.new.output }
{
    admit.admit.line_law();
    admit.admit.beside(&mut writer.output);
    admit.admit.line_law();
}

impl<F: AppendFile, M: PendingMap> FileCell<F, M> {
    /// Opens a file with its body, on an empty line. Takes memory, and hands body and line back for want of it.
    pub fn open(
        alloc: Global,
        file: FileId,
        body: F,
        line: (LineIn, LineOut),
        limits: Limits,
        hull: Option<Hull>,
        moment: u64,
    ) -> Result<FileCell<F, M>, (F, (LineIn, LineOut))>
        requires one { IsOneContext line.0 line.1 }
        requires empty { jobs_sent line.0 ≡ jobs_taken line.1 }
        requires last { line.0.begun < 2 ^ 64 - 1 }
        requires slots { (limits.line_slots ≤ 8) × (limits.line_slots ≤ line_slots line.0) }
        requires history { limits.history < 2 ^ 32 }
        ensures opened { let seen = file_seen F.mark F.content F.durable F.count F.tally body in
            IfOk result (λ c. IsJustOpened file seen limits hull moment line.0 line.1 c) }
        ensures body { let seen = file_seen F.mark F.content F.durable F.count F.tally in IfErr result (λ back. seen back.0 ≡ seen body) }
        ensures line { IfErr result (λ back. IsBack line.0 line.1 back.1.0 back.1.1) }
    {
        let writer = match Writer::new(alloc, body) {
            Ok(writer) => writer,
            Err(body) => return Err((body, line)),
        };
        let base = writer.stored();
        let (mut input, mut output) = line;
        begin(&mut input, &mut output, file, base);
        match Admit::new(alloc, base, input, limits, hull, moment) {
            Ok(admit) => Ok(FileCell {
                admit: AdmitSide {
                    id: file,
                    base,
                    admit,
                },
                writer: WriterSide {
                    writer,
                    output,
                    turned: None,
                },
            }),
            Err(input) => Err((writer.into_file(), (input, output))),
        }
    }

    /// Answers a WRITE of at most 1,048,576 bytes whose end is below 2^63, accepts it, or holds it. Takes memory.
    pub fn write(&mut self, request: WriteReq) -> Verdict
        requires fits { request.offset + length request.bytes < end_limit }
        requires count { length request.bytes ≤ max_transfer }
        ensures step { CellTellsWrite result self.old request self.new }
        ensures stands { CellWrites result self.old request self.new }
    {
        self.admit.write(request)
    }

    /// Answers a COMMIT (RFC 1813 section 3.3.21), or holds it until its bytes are stored and synced. Takes memory.
    pub fn commit(&mut self, request: CommitReq) -> Verdict
        ensures step { CellTellsCommit result self.old request self.new }
        ensures stands { CellCommits result self.old request self.new }
    {
        self.admit.commit(request)
    }

    /// Holds a READ, or answers that the ready list has no room. Takes memory.
    pub fn read(&mut self, request: ReadReq) -> Verdict
        ensures step { CellTellsRead result self.old request self.new }
        ensures stands { CellFetches result self.old request self.new }
    {
        self.admit.read(request)
    }

    /// Does the first job of the line, where there is room for its ticket: `next_answer` gives its answer. The trace has room
    /// for a note. Takes memory for a READ alone.
    pub fn write_step(&mut self, trace: &mut Trace) -> Stepped
        requires none_left { self.old.left ≡ [] }
        requires noted { 0 < trace.old.room }
        ensures step { IsStepped F.tells result self.old self.new trace.old trace.new }
    {
        if !self.writer.room() {
            return Stepped::SyncFirst;
        }
        if self.admit.is_line_empty() {
            return Stepped::Nothing;
        }
        look_beside(&mut self.admit, &mut self.writer);
        let stepped = self.writer.write_step(trace);
        look_beside(&mut self.admit, &mut self.writer);
        stepped
    }

    /// Makes what is stored durable, by one call of hsync. Then `next_answer` gives the answers to those that waited, in the
    /// order in which they began to wait: as they asked, or `NFS3ERR_IO` where hsync failed. The writer goes on working
    /// then. The trace has room for a note. Takes no memory.
    pub fn sync_step(&mut self, trace: &mut Trace) -> Synced
        requires none_left { self.old.left ≡ [] }
        requires noted { 0 < trace.old.room }
        ensures step { self.new ≡ synced_cell result self.new.file self.old }
        ensures notes { trace.new ≡ with_calls (sync_call result ∷ []) trace.old }
        ensures file { Leaves F.tells [] (sync_call result ∷ []) self.old.file self.new.file }
        ensures durable { IsDurable F.tells result self.new.file }
        ensures stands { SyncsFor F.tells result self.old self.new }
        ensures covers { CoversDurable F.tells result self.old self.new }
    {
        self.writer.sync_step(trace)
    }

    /// Hears of the writer, and sends what is ready. Where the writer failed and the file is live, it turns stale. Takes no
    /// memory.
    pub fn pump_step(&mut self) -> Pumped
        requires none_left { self.old.left ≡ [] }
        ensures step { let told = side_pump_step self.old.limits self.old.writer.failed self.old.side in
            self.new ≡ pumped_cell told self.new.input self.old }
        ensures line { GoesOn self.old.input self.new.input }
        ensures stands { CellPumps self.old self.new }
        ensures pumped { CellIsPumped result self.old.side self.new.side }
    {
        let news = self.writer.news();
        self.admit.pump_step(news)
    }

    /// Judges the file at a moment. Where it wasn't used for the time that the limits give, its pending writes and waiting
    /// COMMITs are given up, and that counts as a use; where it is idle then, or idle and stale, or idle with as many accepted
    /// writes as may be, it is to be closed. Takes no memory.
    pub fn tick(&mut self, moment: u64) -> Ticked
        requires none_left { self.old.left ≡ [] }
        ensures judged { let owes = not (is_empty self.old.writer.owed) in
            result ≡ ticked_of (tick_judgement self.old.limits self.old.side owes moment) }
        ensures step { self.new ≡ ticked_cell result moment self.old }
        ensures stands { CellTicks self.old moment self.new }
    {
        let owes = self.writer.owes();
        self.admit.tick(moment, owes)
    }

    /// Closes an idle file but for giving its parts back: hears of the writer, and makes what is stored durable by one call of
    /// hsync. Where that failed the file stays open. The trace has room for a note. Takes no memory.
    pub fn close_step(&mut self, trace: &mut Trace) -> Synced
        requires idle { is_cell_idle self.old ≡ true }
        requires none_left { self.old.left ≡ [] }
        requires noted { 0 < trace.old.room }
        ensures step { self.new ≡ closing_cell result self.new.file self.new.input self.old }
        ensures idle { is_cell_idle self.new ≡ true }
        ensures none_left { self.new.left ≡ [] }
        ensures line { GoesOn self.old.input self.new.input }
        ensures notes { trace.new ≡ with_calls (sync_call result ∷ []) trace.old }
        ensures file { Leaves F.tells [] (sync_call result ∷ []) self.old.file self.new.file }
        ensures durable { IsDurable F.tells result self.new.file }
        ensures stands { ClosesFor F.tells result self.old self.new }
    {
        let news = self.writer.news();
        let _ = self.admit.pump_step(news);
        self.writer.sync_step(trace)
    }

    /// Closes an idle file: hears of the writer, makes what is stored durable by one call of hsync, and gives the parts back.
    /// Where hsync failed the file stays open, and comes back. The trace has room for a note. Takes no memory.
    pub fn close(self, trace: &mut Trace) -> Result<Closed<F>, FileCell<F, M>>
        requires idle { is_cell_idle self ≡ true }
        requires none_left { self.left ≡ [] }
        requires noted { 0 < trace.old.room }
        ensures ok { let seen = file_seen F.mark F.content F.durable F.count F.tally in
            IfOk result (λ c. IsClosed F.tells self (seen c.body) c.line.0 c.line.1 c.stored c.hull c.changed c.ended) }
        ensures err { IfErr result (λ cell. cell ≡ closing_cell Failed cell.file cell.input self) }
        ensures stands { IfErr result (λ cell. ClosesFor F.tells Failed self cell) }
        ensures notes { trace.new ≡ with_calls (plain_call result ∷ []) trace.old }
    {
        let mut cell = self;
        match cell.close_step(trace) {
            Synced::Done => Ok(cell.into_parts()),
            Synced::Failed => Err(cell),
        }
    }

    /// The moment of the last use of the file, or when it was opened.
    pub fn used(&self) -> u64
        ensures { result ≡ self.now.side.held.used }
    {
        self.admit.used()
    }

    /// The next answer that a call left: that of a turn, then those of the admission side. Takes no memory.
    pub fn next_answer(&mut self) -> Option<Answer>
        ensures hands { Hands result self.old.left self.new.left }
        ensures rest { self.new ≡ record self.old { left = self.new.left } }
    {
        if let Some(answer) = self.writer.next_answer() {
            return Some(answer);
        }
        self.admit.next_answer()
    }

    /// The length up to which the accepted writes have left no hole.
    pub fn reach(&self) -> u64
        ensures { result ≡ self.now.side.seen.reach }
    {
        self.admit.reach()
    }

    /// The moment of the last accepted write.
    pub fn changed(&self) -> Option<u64>
        ensures { result ≡ self.now.side.held.changed }
    {
        self.admit.changed()
    }

    /// Whether the file takes no writes any more.
    pub fn is_stale(&self) -> bool
        ensures { result ≡ is_stale self.now.side.held.phase }
    {
        self.admit.is_stale()
    }

    /// Whether nothing is pending, ready, waiting, in the line or waiting for a sync.
    pub fn is_idle(&self) -> bool
        ensures { result ≡ is_cell_idle self.now }
    {
        self.admit.is_quiet() && self.writer.waiting() == 0
    }

    /// Gives the parts of a file back, without a call on its body. The tickets that still wait for a sync are dropped. Takes no
    /// memory.
    pub fn into_parts(self) -> Closed<F>
        requires none_left { self.left ≡ [] }
        ensures body { file_seen F.mark F.content F.durable F.count F.tally result.body ≡ self.file }
        ensures line { IsLineBack self result.line.0 result.line.1 }
        ensures stored { result.stored ≡ self.writer.stored }
        ensures hull { result.hull ≡ self.side.held.hull }
        ensures changed { result.changed ≡ self.side.held.changed }
        ensures ended { IsEnded self result.ended }
        ensures history { (f : File) (why : EndReason) → StandsFor self f → history_of_ended result.ended why ≡ history_of f why }
    {
        let FileCell { admit, writer } = self;
        let AdmitSide { id, base, admit } = admit;
        let WriterSide {
            writer,
            output,
            turned: _,
        } = writer;
        admit.line_law();
        let hull = admit.hull();
        let changed = admit.changed();
        let reach = admit.reach();
        let (input, history) = admit.into_parts();
        let stored = writer.stored();
        let ended = Ended {
            id,
            base,
            history,
            reach,
            stored,
            synced: writer.synced(),
            failed: writer.failed().is_some(),
        };
        Closed {
            body: writer.into_file(),
            line: (input, output),
            stored,
            hull,
            changed,
            ended,
        }
    }
}
