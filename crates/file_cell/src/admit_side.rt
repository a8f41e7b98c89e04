// The admission side of an open file.
ghost use Rattle.std.specs.Prelude.{◌≡◌, ◌+◌, ◌-◌, ◌<◌, ◌≤◌, ◌^◌, ◌&&◌, ◌||◌, [], length, map, nat_le};
ghost use Rattle.gw_model.specs.Bounds.{end_limit, max_transfer};
ghost use Rattle.gw_model.specs.Ending.{tick_judgement};
ghost use Rattle.gw_model.specs.File.{is_empty, is_stale};
ghost use Rattle.gw_model.specs.Sides.{side_pump_step};
ghost use Rattle.job_line.specs.Ends.{SameContextIn, jobs_sent};
ghost use Rattle.admit.specs.Calls.{Commits, Fetches, IsPumped, Pumps, TellsCommit, TellsRead, TellsWrite, Writes, news_of, pump_state, with_heard};
ghost use Rattle.admit.specs.GivenUp.{Hands};
ghost use Rattle.admit.specs.Line.{GoesOn};
ghost use Rattle.file_cell.specs.State.{is_known_failure};
ghost use Rattle.file_cell.specs.Steps.{is_quiet, ticked_admit, ticked_of};

use admit::{Admit, Cause, CommitReq, News, Phase, Pumped, ReadReq, Verdict, WriteReq};
use gw_model::FileId;
use range_map::PendingMap;
use std::marker::Model;
use tickets::Answer;

/// What a tick did.
#[derive(Clone, Copy, Debug, Drop, PartialEq, Eq)]
pub enum Ticked {
    /// Nothing.
    Nothing,
    /// It gave up the pending writes and the waiting COMMITs. Their answers are left.
    GaveUp,
    /// Nothing: the file is to be closed.
    Close,
}

/// The admission side of an open file, with the end of its line that sends: what may lie under a lock of its own.
#[derive(Drop)]
pub struct AdmitSide<M: PendingMap> {
    pub(crate) id: FileId,
    // How many bytes the file had when it was opened.
    pub(crate) base: u64,
    pub(crate) admit: Admit<M>,
}

impl<M: PendingMap> Model for AdmitSide<M> {
    ghost use Rattle.file_cell.specs.State.{AdmitSideState};
    ghost use Rattle.file_cell.specs.Issued.{IssuesFold};

    ghost Value = { AdmitSideState };

    ghost view = { λ a. record { id = a.id; base = a.base; admit = a.admit } };

    ghost invariant = { λ a. IssuesFold (record { id = a.id; base = a.base; admit = a.admit }) };
}

impl<M: PendingMap> AdmitSide<M> {
    /// Takes a WRITE in. Takes memory.
    pub fn write(&mut self, request: WriteReq) -> Verdict
        requires fits { request.offset + length request.bytes < end_limit }
        requires count { length request.bytes ≤ max_transfer }
        ensures step { TellsWrite result self.old.admit request self.new.admit }
        ensures stands { Writes result self.old.admit request self.new.admit }
        ensures rest { self.new ≡ record self.old { admit = self.new.admit } }
    {
        self.admit.line_law();
        self.admit.receive(request)
    }

    /// Takes a COMMIT in. Takes memory.
    pub fn commit(&mut self, request: CommitReq) -> Verdict
        ensures step { TellsCommit result self.old.admit request self.new.admit }
        ensures stands { Commits result self.old.admit request self.new.admit }
        ensures rest { self.new ≡ record self.old { admit = self.new.admit } }
    {
        self.admit.line_law();
        self.admit.commit(request)
    }

    /// Takes a READ in. Takes memory.
    pub fn read(&mut self, request: ReadReq) -> Verdict
        ensures step { TellsRead result self.old.admit request self.new.admit }
        ensures stands { Fetches result self.old.admit request self.new.admit }
        ensures rest { self.new ≡ record self.old { admit = self.new.admit } }
    {
        self.admit.line_law();
        self.admit.fetch(request)
    }

    // Whether the file wasn't used for as long as the limits give.
    fn is_unused_at(&self, moment: u64) -> bool
        ensures { result ≡ nat_le self.now.admit.limits.timeout_ms (moment - self.now.admit.side.held.used) }
    {
        moment.saturating_sub(self.admit.used()) >= self.admit.limits().timeout_ms
    }

    // Whether as many writes were accepted as may be.
    fn is_full(&self) -> bool
        ensures { result ≡ nat_le self.now.admit.limits.history (length self.now.admit.side.seen.entries) }
    {
        self.admit.history().len() as u64 >= self.admit.limits().history
    }

    // Whether an idle file is to be closed, by whether it wasn't used.
    fn is_over(&self, unused: bool) -> bool
        ensures { let s = self.now.admit.side in
            result ≡ (is_stale s.held.phase || nat_le self.now.admit.limits.history (length s.seen.entries) || unused) }
    {
        self.is_stale() || self.is_full() || unused
    }

    // What a tick does, where an answer waits for a sync or none does.
    #[tactic(auto, unfolding(gw_model::specs::Ending::tick_judgement))]
    fn judge_tick(&self, moment: u64, owes: bool) -> Ticked
        ensures { result ≡ ticked_of (tick_judgement self.now.admit.limits self.now.admit.side owes moment) }
    {
        let unused = self.is_unused_at(moment);
        if self.is_quiet() && !owes && self.is_over(unused) {
            return Ticked::Close;
        }
        if unused && self.admit.is_awaiting() {
            return Ticked::GaveUp;
        }
        Ticked::Nothing
    }

    /// Judges the file at a moment, and gives up its pending writes and waiting COMMITs where it wasn't used for so long.
    /// Takes no memory.
    pub fn tick(&mut self, moment: u64, owes: bool) -> Ticked
        requires none_left { self.old.admit.left ≡ [] }
        ensures judged { result ≡ ticked_of (tick_judgement self.old.admit.limits self.old.admit.side owes moment) }
        ensures step { self.new.admit ≡ ticked_admit result moment self.old.admit }
        ensures rest { self.new ≡ record self.old { admit = self.new.admit } }
    {
        let ticked = self.judge_tick(moment, owes);
        if ticked == Ticked::GaveUp {
            self.admit.give_up(moment);
        }
        ticked
    }

    /// Hears of the writer, and sends what is ready. Takes no memory.
    pub fn pump_step(&mut self, news: News) -> Pumped
        requires none_left { self.old.admit.left ≡ [] }
        ensures step { let told = side_pump_step self.old.admit.limits (news_of news) self.old.admit.side in
            self.new.admit ≡ pump_state told self.new.admit.line self.old.admit }
        ensures line { GoesOn self.old.admit.line self.new.admit.line }
        ensures stands { Pumps self.old.admit news self.new.admit }
        ensures pumped { IsPumped result self.old.admit self.new.admit }
        ensures rest { self.new ≡ record self.old { admit = self.new.admit } }
    {
        self.admit.line_law();
        self.admit.pump(news)
    }

    /// Looks anew for free slots, by this end of the line alone. After it fewer jobs may be held as sent. Takes no memory.
    pub fn look(&mut self)
        ensures same { SameContextIn self.old.admit.line self.new.admit.line }
        ensures sent { jobs_sent self.new.admit.line ≡ jobs_sent self.old.admit.line }
        ensures heard { self.old.admit.heard ≤ self.new.admit.heard }
        ensures step { let new = self.new.admit in new ≡ with_heard new.side.held.line new.line new.heard self.old.admit }
        ensures rest { self.new ≡ record self.old { admit = self.new.admit } }
    {
        self.admit.line_law();
        self.admit.look();
        self.admit.line_law();
    }

    /// Whether the file takes writes, or turned stale by just this failure of its writer.
    pub fn knows(&self, news: News) -> bool
        ensures { result ≡ is_known_failure self.now.admit.side.held.phase (news_of news) }
    {
        match self.admit.phase() {
            Phase::Live => true,
            Phase::Stale(Cause::Append { stored, kept }) => match news.failed {
                Some(failed) => *stored == failed.stored && *kept == failed.kept,
                None => false,
            },
            Phase::Stale(Cause::Spill { .. }) => false,
        }
    }

    /// How many marks its end of the line has sent.
    pub fn begun(&self) -> u64
        ensures { result ≡ self.now.admit.line.begun }
    {
        self.admit.begun()
    }

    /// The moment of the last use of the file, or when it was opened.
    pub fn used(&self) -> u64
        ensures { result ≡ self.now.admit.side.held.used }
    {
        self.admit.used()
    }

    /// Whether the file takes no writes any more.
    pub fn is_stale(&self) -> bool
        ensures { result ≡ is_stale self.now.admit.side.held.phase }
    {
        self.admit.is_stale()
    }

    /// The next answer that a call left. Takes no memory.
    pub fn next_answer(&mut self) -> Option<Answer>
        ensures hands { Hands result self.old.admit.left self.new.admit.left }
        ensures rest { self.new ≡ record self.old { admit = record self.old.admit { left = self.new.admit.left } } }
    {
        self.admit.next_answer()
    }

    /// The length up to which the accepted writes have left no hole.
    pub fn reach(&self) -> u64
        ensures { result ≡ self.now.admit.side.seen.reach }
    {
        self.admit.reach()
    }

    /// The moment of the last accepted write.
    pub fn changed(&self) -> Option<u64>
        ensures { result ≡ self.now.admit.side.held.changed }
    {
        self.admit.changed()
    }

    /// Whether no job is held as sent.
    #[tactic(auto, using(crate::proofs::Cells::empty_is))]
    pub fn is_line_empty(&self) -> bool
        ensures { result ≡ is_empty self.now.admit.side.held.line }
    {
        self.admit.in_line() == 0
    }

    /// Whether nothing is pending, ready, waiting or held as sent.
    pub fn is_quiet(&self) -> bool
        ensures { result ≡ is_quiet self.now.admit.side }
    {
        self.admit.is_empty() && self.is_line_empty()
    }
}
