// What is given up: who is refused, and the lines of the history that are lost.
ghost use Rattle.std.specs.Prelude.{◌≡◌, ◌+◌, ◌<◌, ◌≤◌, [], ◌∷◌, ◌++◌, map, nat_lt, ◌||◌, length, vec_len};
ghost use Rattle.std.specs.VecDeque.{deque_len};
ghost use Rattle.gw_model.specs.File.{NotWritten};
ghost use Rattle.gw_model.specs.Admission.{answer_if, job_refusals, refusal};
ghost use Rattle.gw_model.specs.Sides.{entries_lost_above, entries_lost_with};
ghost use Rattle.job_line.specs.Views.{ticket_number};
ghost use Rattle.tickets.specs.Answers.{ArePlain, answers_of};
ghost use Rattle.admit.specs.Jobs.{ready_job};
ghost use Rattle.admit.specs.Queue.{fetches_of, others_of, ready_jobs};
ghost use Rattle.admit.specs.Sending.{queue_end, ready_of};
ghost use Rattle.admit.specs.GivenUp.{entry_answers, waiting_answers};
ghost use Rattle.admit.specs.Parts.{AreNumberedFrom, entries_lost_at, line_of};

use crate::job::Job;
use crate::line::Queue;
use crate::phase::HistoryEntry;
use crate::queue::fetches;
use crate::refusals::Refusals;
use commit_queue::Waiting;
use gw_model::BASE_WEIGHT;
use range_map::PendingMap;
use std::alloc::Global;
use std::collections::VecDeque;
use tickets::{Answer, Ticket};

// The refusal of a WRITE, if an answer is owed.
fn refused_write(ticket: Option<Ticket>, status: u32) -> Option<Answer>
    requires { 0 < status }
    ensures answer { answers_of result ≡ answer_if (ticket_number ticket) (NotWritten status) }
    ensures plain { ArePlain result }
{
    Some(Answer::not_written(ticket?, status))
}

/// Entries are given up, and whoever waits for one is refused.
#[tactic(auto, using(crate::proofs::GivenUpRefusals::refusal_steps))]
pub fn refuse_entries<M: PendingMap>(left: &mut Refusals, mut entries: M, status: u32)
    requires status { 0 < status }
    requires room { length (M.entries entries) ≤ left.old.room }
    ensures answers { left.new.answers ≡ left.old.answers ++ entry_answers status (M.entries entries) }
    ensures room { left.old.room ≤ left.new.room + length (M.entries entries) }
{
    while let Some(entry) = entries.pop_first() {
        left.push(refused_write(entry.ticket, status));
    }
}

/// The COMMITs that wait are refused.
#[tactic(auto, using(crate::proofs::GivenUpRefusals::refusal_steps))]
pub fn refuse_waiting(left: &mut Refusals, waiting: &mut Waiting, status: u32)
    requires status { 0 < status }
    requires room { length waiting.old.commits ≤ left.old.room }
    ensures none { waiting.new.commits ≡ [] }
    ensures answers { left.new.answers ≡ left.old.answers ++ waiting_answers status waiting.old.commits }
    ensures room { left.old.room ≤ left.new.room + length waiting.old.commits }
{
    while let Some(ticket) = waiting.take_first() {
        left.push(Some(Answer::not_committed(ticket, status)));
    }
}

// The refusal of a job, if an answer is owed.
fn refused_job(alloc: Global, job: Job, status: u32) -> Option<Answer>
    requires { 0 < status }
    ensures answer { answers_of result ≡ answer_if (ready_job job).ticket (refusal (ready_job job).task status) }
    ensures plain { ArePlain result }
{
    match job {
        Job::Put {
            bytes: _bytes,
            ticket,
            ..
        } => refused_write(ticket, status),
        Job::Compare {
            bytes: _bytes,
            ticket,
            ..
        } => Some(Answer::not_written(ticket, status)),
        Job::Fetch { ticket, .. } => Some(Answer::not_given(alloc, ticket, status)),
        Job::Settle { ticket } => Some(Answer::not_committed(ticket, status)),
    }
}

/// The jobs but for Fetches are refused, and the Fetches stay.
#[tactic(auto, using(crate::proofs::GivenUpRefusals::refusal_steps))]
pub fn refuse_jobs(left: &mut Refusals, jobs: &mut VecDeque<Job>, alloc: Global, status: u32)
    requires status { 0 < status }
    requires room { deque_len jobs.old ≤ left.old.room }
    ensures stay { ready_jobs jobs.new.items ≡ fetches_of jobs.old.items }
    ensures answers { left.new.answers ≡ left.old.answers ++ job_refusals status (others_of jobs.old.items) }
    ensures room { deque_len jobs.new ≤ left.new.room }
{
    for _ in 0..jobs.len() {
        let Some(job) = jobs.pop_front() else {
            unreachable!()
        };
        if fetches(&job) {
            jobs.push_back_reserved(job);
        } else {
            left.push(refused_job(alloc, job, status));
        }
    }
}

/// The ready jobs but for Fetches are refused, and the Fetches stay.
#[tactic(auto, using(crate::proofs::GivenUpRefusals::strike_steps))]
pub fn strike(queue: &mut Queue, left: &mut Refusals, alloc: Global, status: u32)
    requires status { 0 < status }
    requires room { deque_len queue.old.ready ≤ left.old.room }
    ensures ready { ready_of queue.new ≡ fetches_of queue.old.ready.items }
    ensures answers { left.new.answers ≡ left.old.answers ++ job_refusals status (others_of queue.old.ready.items) }
    ensures room { deque_len queue.new.ready ≤ left.new.room }
    ensures line { queue.new.line ≡ queue.old.line }
    ensures end { queue_end queue.new ≤ queue_end queue.old }
{
    refuse_jobs(left, &mut queue.ready, alloc, status);
    queue.weight = u128::from(BASE_WEIGHT) * queue.ready.len() as u128;
    queue.settles = 0;
}

// Whether a line is lost where those above reach are.
fn is_lost(reach: u64, offset: u64, lost: bool) -> bool
    ensures { result ≡ (nat_lt reach offset || lost) }
{
    reach < offset || lost
}

/// The lines above reach are lost.
pub fn lose_above(history: &mut Vec<HistoryEntry>, reach: u64)
    ensures lines { map line_of history.new.items ≡ entries_lost_above reach (map line_of history.old.items) }
    ensures len { vec_len history.new ≡ vec_len history.old }
{
    let mut at = 0;
    while at < history.len() {
        let line = &mut history[at];
        line.lost = is_lost(reach, line.offset, line.lost);
        at += 1;
    }
}

// The line of a number is lost. It stands where its number says.
#[tactic(auto, using(crate::proofs::GivenUpLines::numbers))]
fn lose_line(history: &mut Vec<HistoryEntry>, number: u32)
    requires numbered { AreNumberedFrom 0 (map line_of history.old.items) }
    ensures lines { map line_of history.new.items ≡ entries_lost_at number (map line_of history.old.items) }
    ensures numbered { AreNumberedFrom 0 (map line_of history.new.items) }
    ensures len { vec_len history.new ≡ vec_len history.old }
{
    let Some(at) = (number as usize).checked_sub(1) else {
        return;
    };
    if at < history.len() {
        history[at].lost = true;
    }
}

/// The lines of the Puts among jobs are lost.
#[tactic(auto, using(crate::proofs::GivenUpLines::numbers))]
pub fn lose_jobs(history: &mut Vec<HistoryEntry>, jobs: &VecDeque<Job>)
    requires numbered { AreNumberedFrom 0 (map line_of history.old.items) }
    ensures lines { map line_of history.new.items ≡ entries_lost_with (ready_jobs jobs.now.items) (map line_of history.old.items) }
    ensures numbered { AreNumberedFrom 0 (map line_of history.new.items) }
    ensures len { vec_len history.new ≡ vec_len history.old }
{
    let mut at = 0;
    while let Some(job) = jobs.get(at) {
        lose_job(history, job);
        at += 1;
    }
}

// The line of a Put is lost; of another job none is.
#[tactic(auto, using(crate::proofs::GivenUpLines::numbers))]
fn lose_job(history: &mut Vec<HistoryEntry>, job: &Job)
    requires numbered { AreNumberedFrom 0 (map line_of history.old.items) }
    ensures lines { map line_of history.new.items ≡ entries_lost_with (ready_jobs (job.now ∷ [])) (map line_of history.old.items) }
    ensures numbered { AreNumberedFrom 0 (map line_of history.new.items) }
    ensures len { vec_len history.new ≡ vec_len history.old }
{
    match job {
        Job::Put { number, .. } => lose_line(history, *number),
        Job::Compare { .. } => {}
        Job::Fetch { .. } => {}
        Job::Settle { .. } => {}
    }
}
