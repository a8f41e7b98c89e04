// What an admission side sees of the writes of its file.
ghost use Rattle.std.specs.Prelude.{◌≡◌, ◌+◌, ◌<◌, ◌≤◌, ◌^◌, [], length, map, true, IfErr, IsSomeAnd, IsTrue, None, OnErr, OnOk, nat_lt};
ghost use Rattle.std.specs.VecDeque.{deque_capacity, deque_len};
ghost use Rattle.gw_model.specs.Admission as model;
ghost use Rattle.gw_model.specs.Admission.{goal_of, same_range};
ghost use Rattle.gw_model.specs.Bounds.{end_limit, max_transfer};
ghost use Rattle.gw_model.specs.Ending.{hull_of_entries};
ghost use Rattle.gw_model.specs.File.{memory_weight};
ghost use Rattle.gw_model.specs.Order.{is_first_reached};
ghost use Rattle.gw_model.specs.Sides.{entries_lost_with, seen_without_pending, with_first_changed, with_ticket};
ghost use Rattle.range_map.specs.Entries.{lies_in_memory};
ghost use Rattle.admit.specs.Calls.{write_request};
ghost use Rattle.admit.specs.Judge.{Finds, repeat_value};
ghost use Rattle.admit.specs.Parts.{IsPendingEntry, entry_write, line_of, memory_bytes, writes_of};
ghost use Rattle.admit.specs.Queue.{ready_jobs};
ghost use Rattle.admit.specs.Sending.{jobs_ahead, load_with, queue_end, ready_of, seen_released, seen_with};

use crate::given_up::{lose_above, lose_jobs};
use crate::job::Job;
use crate::judge::{Found, Repeat};
use crate::line::Queue;
use crate::phase::HistoryEntry;
use crate::queue::push_job;
use crate::request::WriteReq;
use crate::ticket::is_unstable;
use bytes::Bytes;
use gw_model::{BASE_WEIGHT, Hull, Stable, join_hull};
use range_map::{Entry, PendingMap, Place};
use std::alloc::Global;
use std::collections::VecDeque;
use std::marker::Model;
use std::mem;
use tickets::Ticket;

/// The writes of a file: how far they have left no hole, those that are pending, and the history.
#[derive(Drop)]
pub struct Seen<M: PendingMap> {
    reach: u64,
    // The greatest end accepted, or the length at opening.
    top: u64,
    pending: M,
    // What the pending writes weigh.
    memory: u128,
    history: Vec<HistoryEntry>,
}

impl<M: PendingMap> Model for Seen<M> {
    ghost use Rattle.std.specs.Prelude.{◌≡◌, ◌<◌, map, vec_len};
    ghost use Rattle.gw_model.specs.Bounds.{end_limit};
    ghost use Rattle.gw_model.specs.File as model;
    ghost use Rattle.admit.specs.Parts.{AllUpTo, AreNumberedFrom, ArePendingEntries, line_of, memory_of, writes_of};

    ghost Value = { model.Seen };

    ghost view = { λ s. record {
      reach = s.reach;
      top = s.top;
      pending = writes_of (M.entries s.pending);
      entries = map line_of s.history.items;
    } };

    ghost invariant = { λ s. (s.reach < end_limit)
        × ArePendingEntries (M.entries s.pending)
        × AllUpTo (vec_len s.history) (M.entries s.pending)
        × (s.memory ≡ memory_of (M.entries s.pending))
        × AreNumberedFrom 0 (map line_of s.history.items) };
}

// The bytes of a write that wasn't spilled.
fn bytes_in_memory(place: Place) -> Bytes
    requires { lies_in_memory place ≡ true }
    ensures { result ≡ memory_bytes place }
{
    match place {
        Place::Memory(bytes) => bytes,
        Place::Spilled(_) => unreachable!(),
    }
}

// How a WRITE repeats a pending one of its range, whose bytes are in memory.
fn repeat_of(entry: &Entry, request: &WriteReq) -> Repeat
    requires { IsPendingEntry entry.now }
    ensures { model.repeat_of (write_request request.now) (entry_write entry.now) ≡ repeat_value result }
{
    let Place::Memory(bytes) = &entry.place else {
        unreachable!()
    };
    if bytes.as_slice() != request.bytes.as_slice() {
        Repeat::Differs
    } else if entry.ticket.is_some() {
        Repeat::Unanswered
    } else if is_unstable(request.stable) {
        Repeat::Answered
    } else {
        Repeat::Takes
    }
}

impl<M: PendingMap> Seen<M> {
    /// Those of a file that is opened with `base` bytes. Takes no memory.
    pub fn new(alloc: Global, base: u64) -> Self
        requires { base < end_limit }
        ensures { result ≡ record { reach = base; top = base; pending = []; entries = [] } }
    {
        Seen {
            reach: base,
            top: base,
            pending: M::new(alloc),
            memory: 0,
            history: Vec::new(alloc),
        }
    }

    /// The length up to which the accepted writes have left no hole.
    pub fn reach(&self) -> u64
        ensures value { result ≡ self.now.reach }
        ensures low { result < end_limit }
    {
        self.reach
    }

    /// The greatest end accepted, or the length at opening.
    pub fn top(&self) -> u64
        ensures { result ≡ self.now.top }
    {
        self.top
    }

    /// The writes that wait for the bytes before them.
    pub fn pending(&self) -> &M
        ensures { writes_of (M.entries result.now) ≡ self.now.pending }
    {
        &self.pending
    }

    /// How many writes are pending.
    pub fn pending_len(&self) -> usize
        ensures value { result ≡ length self.now.pending }
        ensures small { result < 2 ^ 63 }
    {
        self.pending.len()
    }

    /// The accepted writes, by number.
    pub fn history(&self) -> &[HistoryEntry]
        ensures { map line_of result.now ≡ self.now.entries }
    {
        &self.history
    }

    /// How many writes were accepted.
    pub fn accepted(&self) -> u64
        ensures { result ≡ length self.now.entries }
    {
        self.history.len() as u64
    }

    /// Gives the history.
    pub fn into_history(self) -> Vec<HistoryEntry>
        ensures { map line_of result.items ≡ self.entries }
    {
        self.history
    }

    /// Whether the weight of the pending writes and so much more are over a cap.
    pub fn is_over(&self, more: u64, cap: u64) -> bool
        ensures { result ≡ nat_lt cap (memory_weight self.now.pending + more) }
    {
        u128::from(cap) < self.memory.saturating_add(u128::from(more))
    }

    /// The pending write that has the range of a request, and how the request repeats it.
    #[tactic(auto, using(crate::proofs::JudgedRanges::ranges))]
    pub fn look_up(&self, request: &WriteReq) -> Found
        requires count { length request.now.bytes ≤ max_transfer }
        ensures { Finds result request.now self.now }
    {
        match self
            .pending
            .same_range(request.offset, request.bytes.len() as u32)
        {
            None => Found::Nothing,
            Some(entry) => Found::Pending(entry.number, repeat_of(entry, request)),
        }
    }

    /// The goal of a COMMIT of the bytes below `limit`, or 0.
    #[tactic(auto, using(crate::proofs::CommitGoals::goals_of))]
    pub fn goal(&self, limit: u64) -> u64
        ensures { result ≡ goal_of limit self.now.pending }
    {
        self.pending.max_goal(limit)
    }

    /// A hull, joined with that of what hangs.
    #[tactic(auto, using(crate::proofs::CommitGoals::goals_of, crate::proofs::CommitGoals::firsts_of))]
    pub fn lost_hull(&self, hull: Option<Hull>) -> Option<Hull>
        ensures { result ≡ hull_of_entries hull self.now.pending }
    {
        match self.pending.first() {
            None => hull,
            Some(entry) => join_hull(hull, entry.offset, self.pending.max_goal(1 << 63)),
        }
    }

    /// Puts a write among the pending ones, and its line into the history. Takes memory, and hands the entry back for want
    /// of it.
    pub fn insert(&mut self, entry: Entry) -> Result<(), Entry>
        requires fits { IsPendingEntry entry }
        requires number { entry.number ≡ length self.old.entries + 1 }
        ensures ok { OnOk result (self.new ≡ seen_with (entry_write entry) self.old) }
        ensures back { IfErr result (λ e. e ≡ entry) }
        ensures err { OnErr result (self.new ≡ self.old) }
    {
        let Some(memory) = self.memory.checked_add(u128::from(entry.weight)) else {
            return Err(entry);
        };
        if self.history.reserve(1).is_err() {
            return Err(entry);
        }
        let line = HistoryEntry {
            number: entry.number,
            offset: entry.offset,
            count: entry.count,
            lost: false,
            place: None,
        };
        let end = entry.offset + u64::from(entry.count);
        self.pending.insert(entry)?;
        self.memory = memory;
        self.top = self.top.max(end);
        self.history.push_reserved(line);
        Ok(())
    }

    #[tactic(auto, using(crate::proofs::AcceptedEntries::heads))]
    fn is_reached(&self) -> bool
        ensures { result ≡ is_first_reached self.now.reach self.now.pending }
    {
        match self.pending.first() {
            Some(entry) => entry.offset <= self.reach,
            None => false,
        }
    }

    // Releases the first pending write, which reach arrives at.
    #[tactic(auto, using(crate::proofs::AcceptedEntries::firsts))]
    fn release_first(&mut self, queue: &mut Queue)
        requires reached { IsTrue (is_first_reached self.old.reach self.old.pending) }
        requires room { deque_len queue.old.ready < deque_capacity queue.old.ready }
        requires next { queue_end queue.old ≡ self.old.reach }
        ensures seen { seen_released self.new ≡ seen_released self.old }
        ensures jobs { jobs_ahead queue.new self.new ≡ jobs_ahead queue.old self.old }
        ensures next { queue_end queue.new ≡ self.new.reach }
        ensures some { 0 < length self.old.pending }
        ensures len { load_with queue.new self.new ≡ load_with queue.old self.old }
        ensures more { deque_len queue.new.ready ≡ deque_len queue.old.ready + 1 }
        ensures capacity { deque_capacity queue.new.ready ≡ deque_capacity queue.old.ready }
        ensures line { queue.new.line ≡ queue.old.line }
    {
        let Some(entry) = self.pending.pop_first() else {
            unreachable!()
        };
        let Entry {
            number,
            offset,
            count: _,
            weight,
            place,
            stable,
            ticket,
        } = entry;
        let mut bytes = bytes_in_memory(place);
        let start = self.reach;
        let below = (start - offset).min(bytes.len() as u64);
        bytes.advance(below as usize);
        self.reach += bytes.len() as u64;
        self.memory -= u128::from(weight);
        push_job(
            queue,
            Job::Put {
                number,
                start,
                bytes,
                asked: weight - BASE_WEIGHT as u32,
                stable,
                ticket,
            },
        );
    }

    /// Releases pending writes as long as reach arrives at the first. There is room for all of them among the ready jobs.
    pub fn release_all(&mut self, queue: &mut Queue)
        requires room { load_with queue.old self.old ≤ deque_capacity queue.old.ready }
        requires next { queue_end queue.old ≡ self.old.reach }
        ensures seen { self.new ≡ seen_released self.old }
        ensures jobs { ready_of queue.new ≡ jobs_ahead queue.old self.old }
        ensures next { queue_end queue.new ≡ self.new.reach }
        ensures len { load_with queue.new self.new ≡ load_with queue.old self.old }
        ensures capacity { deque_capacity queue.new.ready ≡ deque_capacity queue.old.ready }
        ensures line { queue.new.line ≡ queue.old.line }
    {
        while self.is_reached() {
            self.release_first(queue);
        }
    }

    /// The pending write of a range takes a ticket.
    #[tactic(auto, using(crate::proofs::JudgedRanges::gives))]
    pub fn give_ticket(
        &mut self,
        offset: u64,
        count: u32,
        number: u32,
        stable: Stable,
        ticket: Ticket,
    )
        requires { IsSomeAnd (same_range offset count self.old.pending) (λ w. (w.number ≡ number) × (w.ticket ≡ None)) }
        ensures ticket { self.new ≡ record self.old { pending = with_first_changed number (with_ticket stable ticket.number) self.old.pending } }
        ensures many { length self.new.pending ≡ length self.old.pending }
    {
        self.pending.give_ticket(offset, number, stable, ticket);
    }

    /// Takes the pending writes out. Their lines are lost.
    #[tactic(auto, using(crate::proofs::GivenUpLines::numbers))]
    pub fn take_pending(&mut self, alloc: Global) -> M
        ensures seen { self.new ≡ seen_without_pending self.old }
        ensures taken { writes_of (M.entries result) ≡ self.old.pending }
    {
        lose_above(&mut self.history, self.reach);
        self.memory = 0;
        mem::replace(&mut self.pending, M::new(alloc))
    }

    /// The lines of the Puts among jobs are lost.
    pub fn lose_jobs(&mut self, jobs: &VecDeque<Job>)
        ensures { self.new ≡ record self.old { entries = entries_lost_with (ready_jobs jobs.now.items) self.old.entries } }
    {
        lose_jobs(&mut self.history, jobs);
    }
}
