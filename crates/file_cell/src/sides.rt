// The two sides of an open file apart, so that each may lie under a lock of its own.
ghost use Rattle.std.specs.Prelude.{◌≡◌, ℕ, ◌+◌, ◌<◌, ◌≤◌, ◌&&◌, List, [], length, nat_eq, true, vec_len};
ghost use Rattle.std.specs.Vec.{vec_capacity};
ghost use Rattle.job_line.specs.Ends.{IsOneLine, SameContextOut};
ghost use Rattle.file_cell.specs.Issued.{SendsFold};
ghost use Rattle.file_cell.specs.Rounds.{IsRound, with_answer};
ghost use Rattle.file_cell.specs.Sides.{AreOneFile, HoldsFront};
ghost use Rattle.file_cell.specs.State.{IsJoined, IsMarked, IsWithinTaken, KnowsFailure, cell_of, failure_by, is_known_failure};
ghost use Rattle.file_cell.specs.Steps.{IsLooked, counted_admit};
ghost use Rattle.file_cell.specs.Stored.{IsWritten};

use crate::admit_side::AdmitSide;
use crate::cell::{FileCell, look_beside};
use crate::writer_side::{Stepped, Turned, WriterSide};
use append_store::AppendFile;
use gw_model::Trace;
use range_map::PendingMap;
use tickets::Answer;

impl<F: AppendFile, M: PendingMap> FileCell<F, M> {
    /// Takes an open file apart. `join_sides` makes just this file of its sides.
    pub fn split(self) -> (AdmitSide<M>, WriterSide<F>)
        ensures joined { IsJoined result.0 result.1 }
        ensures one { AreOneFile result.0 result.1 }
        ensures same { cell_of result.0 result.1 ≡ self }
        ensures none_left { self.left ≡ [] → (result.0.admit.left ≡ []) × (result.1.left ≡ []) }
    {
        let FileCell { admit, writer } = self;
        (admit, writer)
    }
}

/// Whether both sides, with the ends of one line, are of one file: their ends stand at one mark, and the admission side is live or
/// turned stale by just the failure of this writer.
pub fn are_one_file<F: AppendFile, M: PendingMap>(
    admit: &AdmitSide<M>,
    writer: &WriterSide<F>,
) -> bool
    requires line { IsOneLine admit.now.admit.line writer.now.output }
    ensures one { result ≡ true → AreOneFile admit.now writer.now }
    ensures exact { let known = is_known_failure admit.now.admit.side.held.phase writer.now.writer.failed in
        result ≡ (nat_eq admit.now.admit.line.begun writer.now.output.begun && known) }
{
    admit.failure_law();
    admit.begun() == writer.begun() && admit.knows(writer.news())
}

/// Both sides look anew at their line. After it they may be joined, whatever each of them did by itself. Takes no memory.
pub fn meet_sides<F: AppendFile, M: PendingMap>(
    admit: &mut AdmitSide<M>,
    writer: &mut WriterSide<F>,
)
    requires one { AreOneFile admit.old writer.old }
    ensures joined { IsJoined admit.new writer.new }
    ensures looked { IsLooked admit.old.admit.line writer.old.output admit.new.admit.line writer.new.output }
    ensures admit { admit.new ≡ record admit.old { admit = counted_admit admit.new.admit.line writer.new.output admit.old.admit } }
    ensures writer { writer.new ≡ record writer.old { output = writer.new.output } }
    ensures content { F.tells → HoldsFront admit.new writer.new }
{
    look_beside(admit, writer);
    admit.issued_law();
    writer.written_law();
}

/// Makes the open file of its two sides, which looked at their line and did nothing since.
pub fn join_sides<F: AppendFile, M: PendingMap>(
    admit: AdmitSide<M>,
    writer: WriterSide<F>,
) -> FileCell<F, M>
    requires joined { IsJoined admit writer }
    ensures same { result ≡ cell_of admit writer }
{
    FileCell { admit, writer }
}

/// What a round did.
#[derive(Clone, Copy, Debug, Drop)]
pub struct Round {
    /// How many jobs were done.
    pub done: usize,
    /// `Did` where these are as many as were asked for, and else why the next one wasn't done.
    pub ended: Stepped,
}

// Puts an answer behind those that are held, where there is room for it.
fn hold(answers: &mut Vec<Answer>, answer: Option<Answer>)
    requires space { vec_len answers.old < vec_capacity answers.old }
    ensures items { answers.new.items ≡ with_answer answers.old.items answer }
    ensures len { vec_len answers.new ≤ vec_len answers.old + 1 }
    ensures capacity { vec_capacity answers.new ≡ vec_capacity answers.old }
{
    if let Some(answer) = answer {
        answers.push_reserved(answer);
    }
}

impl<M: PendingMap> AdmitSide<M> {
    /// What is kept under an admission lock: whatever bytes the file was opened with, the Puts sent and those ready are the pieces of
    /// their fold with the writes that were accepted, in order. A law; the function does nothing.
    pub fn issued_law(&self)
        ensures mark { IsMarked self.now }
        ensures sends { (base : List ℕ) → self.now.base ≡ length base → SendsFold self.now base }
    {
        self.admit.line_law();
    }

    // Where the side is stale, it heard of the failure that it turned stale by. A law; the function does nothing.
    fn failure_law(&self)
        ensures { KnowsFailure self.now.admit.side (failure_by self.now.admit.side.held.phase) }
    {
        let _ = &self.admit;
    }
}

impl<F: AppendFile> WriterSide<F> {
    /// Does the jobs that are known to be in the line, in order, but `most` of them at most, and no further one where as many tickets
    /// wait for a sync as may. Their answers go behind those of `answers`. There and in the trace is room for so many. Takes memory
    /// for READs alone.
    pub fn round(&mut self, most: usize, answers: &mut Vec<Answer>, trace: &mut Trace) -> Round
        requires none_left { self.old.left ≡ [] }
        requires noted { most ≤ trace.old.room }
        requires space { vec_len answers.old + most ≤ vec_capacity answers.old }
        ensures round { IsRound F.tells result most self.old self.new trace.old trace.new answers.old.items answers.new.items }
        ensures line { SameContextOut self.old.output self.new.output }
        ensures none_left { self.new.left ≡ [] }
        ensures capacity { vec_capacity answers.new ≡ vec_capacity answers.old }
    {
        let mut done = 0;
        while done < most {
            match self.do_next(trace) {
                Turned::SyncFirst => return Round {
                    done,
                    ended: Stepped::SyncFirst,
                },
                Turned::Nothing => return Round {
                    done,
                    ended: Stepped::Nothing,
                },
                Turned::Did(answer) => hold(answers, answer),
            }
            done += 1;
        }
        Round {
            done,
            ended: Stepped::Did,
        }
    }

    /// What is kept under a writer lock: what the jobs that were taken since the mark added stands behind the bytes that the file
    /// had at the mark. A law; the function does nothing.
    pub fn written_law(&self)
        ensures written { IsWritten F.tells self.now.writer self.now.file.content self.now.output }
        ensures within { IsWithinTaken self.now.writer self.now.output }
    {
        let _ = &self.writer;
    }
}
