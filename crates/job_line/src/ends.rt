// The two ends of a line.
ghost use Rattle.std.specs.Prelude.{◌≡◌, ◌≤◌};
ghost use Rattle.rtrb.specs.Ring.{sent, received, producer_capacity};
ghost use Rattle.job_line.specs.Items.{mark_count};

use crate::Job;
use crate::items::{Fitting, Item};
use rtrb::{Consumer, Producer};
use std::alloc::Global;

/// The end that sends.
#[derive(Drop)]
pub struct LineIn {
    pub(crate) producer: Producer<Item, Global, Fitting>,
    pub(crate) begun: u64,
    ghost counted: { begun ≡ mark_count (sent producer) },
    ghost slotted: { 1 ≤ producer_capacity producer },
}

/// The end that takes.
#[derive(Drop)]
pub struct LineOut {
    pub(crate) consumer: Consumer<Item, Global, Fitting>,
    pub(crate) begun: u64,
    ghost counted: { begun ≡ mark_count (received consumer) },
}

impl LineIn {
    ghost use Rattle.std.specs.Prelude.{◌+◌, ◌<◌, [], ◌∷◌, ◌++◌, IsOk, IfErr, OnErr, OnOk};
    ghost use Rattle.job_line.specs.Items.{MayFollow};
    ghost use Rattle.job_line.specs.Ends.{jobs_sent, base_sent, free_slots, line_slots, SameContextIn};

    /// Sends a job, or hands it back where no free slot was known, and then sends nothing. It looks anew for free slots.
    /// Takes no memory.
    #[tactic(auto, using(crate::proofs::Lists::one_more))]
    pub fn send(&mut self, job: Job) -> Result<(), Job>
        requires { MayFollow (base_sent self.old) (jobs_sent self.old) job }
        ensures same { SameContextIn self.old self.new }
        ensures sent { OnOk result (jobs_sent self.new ≡ jobs_sent self.old ++ job ∷ []) }
        ensures free { OnOk result (free_slots self.old ≤ free_slots self.new + 1) }

        ensures back { IfErr result (λ back. back ≡ job) }
        ensures unsent { OnErr result (jobs_sent self.new ≡ jobs_sent self.old) }
        ensures full { OnErr result (free_slots self.new ≡ 0) }
        ensures succeeds { 0 < free_slots self.old → IsOk result }
    {
        if self.producer.is_full() {
            return Err(job);
        }
        self.producer.push_reserved(Item::Work(job));
        Ok(())
    }

    /// Looks anew for free slots, and gives how many there are. Takes no memory.
    pub fn look(&mut self) -> usize
        ensures same { SameContextIn self.old self.new }
        ensures sent { jobs_sent self.new ≡ jobs_sent self.old }
        ensures free { result ≡ free_slots self.new }
        ensures more { free_slots self.old ≤ free_slots self.new }
    {
        self.producer.slots()
    }

    /// How many slots the line has.
    pub fn slots(&self) -> usize
        ensures { result ≡ line_slots self.now }
    {
        self.producer.capacity()
    }

    /// How many marks this end has sent.
    pub fn begun(&self) -> u64
        ensures { result ≡ self.now.begun }
    {
        self.begun
    }
}

impl LineOut {
    ghost use Rattle.std.specs.Prelude.{◌<◌, [], ◌∷◌, ◌++◌, length, drop, slice_get, IsSome, IfSome, IfNone};
    ghost use mathlib.Core.List.{IsPrefix};
    ghost use Rattle.job_line.specs.Items.{MayFollow};
    ghost use Rattle.job_line.specs.Ends.{jobs_taken, base_taken, jobs_known, SameContextOut};

    /// Takes the next job sent, or none where none was known. It looks anew for jobs. Takes no memory.
    #[tactic(auto, using(crate::proofs::Lists::one_more))]
    pub fn take(&mut self) -> Option<Job>
        ensures same { SameContextOut self.old self.new }
        ensures taken { IfSome result (λ job. jobs_taken self.new ≡ jobs_taken self.old ++ job ∷ []) }
        ensures fits { IfSome result (λ job. MayFollow (base_taken self.old) (jobs_taken self.old) job) }
        ensures untaken { IfNone result (jobs_taken self.new ≡ jobs_taken self.old) }

        // Jobs that were known come in their order, and stay known until they are taken.
        ensures next { 0 < length (jobs_known self.old) → result ≡ slice_get (jobs_known self.old) 0 }
        ensures known { IsPrefix (drop 1 (jobs_known self.old)) (jobs_known self.new) }
        ensures none { IfNone result (jobs_known self.new ≡ []) }
    {
        if self.consumer.is_empty() {
            return None;
        }
        if let Item::Begin(_) = self.consumer.peek_known() {
            return None;
        }
        match self.consumer.pop_known() {
            Item::Work(job) => Some(job),
            Item::Begin(_) => unreachable!(),
        }
    }

    /// How many marks this end has taken.
    pub fn begun(&self) -> u64
        ensures { result ≡ self.now.begun }
    {
        self.begun
    }
}
