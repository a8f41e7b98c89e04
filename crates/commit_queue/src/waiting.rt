// The queue with goals.
ghost use Rattle.std.specs.Prelude.{◌≡◌, ◌+◌, ◌-◌, ◌<◌, ◌≤◌, ◌∷◌, [], ◌++◌, length, drop, find, option_map, position, slice_get, is_some, IsOk, OnOk, if◌then◌else◌};
ghost use Rattle.commit_queue.specs.Queue.{is_ready, with_commit, without_ready};

use gw_model::NoMemory;
use std::alloc::Global;
use std::collections::VecDeque;
use std::marker::Model;
use tickets::Ticket;

// A COMMIT that waits.
#[derive(Drop)]
struct Waiter {
    goal: u64,
    ticket: Ticket,
}

impl Model for Waiter {
    ghost use Rattle.commit_queue.specs.Queue.{Commit};

    ghost Value = { Commit };

    ghost view = { λ w. record { goal = w.goal; ticket = w.ticket } };
}

/// The COMMITs that wait, in the order in which they were added, each with its goal: the length in bytes that the file's
/// contiguous front has to come to.
#[derive(Drop)]
pub struct Waiting {
    waiters: VecDeque<Waiter>,
    // No goal is below it, so that a look from below it needs no scan.
    least: u64,
}

impl Model for Waiting {
    ghost use Rattle.std.specs.Prelude.{◌-◌};
    ghost use Rattle.std.specs.VecDeque.{deque_len, deque_capacity};
    ghost use Rattle.commit_queue.specs.Queue.{GoalsFrom, QueueState};

    ghost Value = { QueueState };

    ghost view = { λ w. record { commits = w.waiters.items; room = deque_capacity w.waiters - deque_len w.waiters } };

    ghost invariant = { λ w. GoalsFrom w.least w.waiters.items };
}

impl Waiting {
    /// Makes a queue in which none waits.
    pub fn new(alloc: Global) -> Self
        ensures { result.commits ≡ [] }
    {
        Waiting {
            waiters: VecDeque::new(alloc),
            least: 0,
        }
    }

    /// Makes room for one more. Want of memory changes no COMMIT.
    pub fn reserve(&mut self) -> Result<(), NoMemory>
        ensures ok { OnOk result (0 < self.new.room) }
        ensures grows { self.old.room ≤ self.new.room }
        ensures succeeds { 0 < self.old.room → IsOk result }
        ensures rest { self.new ≡ record self.old { room = self.new.room } }
    {
        self.waiters.reserve(1).map_err(|_| NoMemory)
    }

    /// Adds a COMMIT behind the others, in the room that there is. Takes no memory.
    #[tactic(auto, using(crate::proofs::WaitingCommits::least_steps))]
    pub fn add(&mut self, goal: u64, ticket: Ticket)
        requires { 0 < self.old.room }
        ensures { self.new ≡ with_commit goal ticket self.old }
    {
        self.least = self.least.min(goal);
        self.waiters.push_back_reserved(Waiter { goal, ticket });
    }

    /// Takes out the first whose goal is at most `reach`, or `None` where there is none. Its place is room. Takes no
    /// memory.
    #[tactic(auto, using(crate::proofs::WaitingCommits::least_steps))]
    pub fn take_ready(&mut self, reach: u64) -> Option<Ticket>
        ensures ticket { result ≡ option_map (λ c. c.ticket) (find (is_ready reach) self.old.commits) }
        ensures others { self.new.commits ≡ without_ready reach self.old.commits }
        ensures room { self.new.room ≡ self.old.room + (if is_some result then 1 else 0) }
    {
        if reach < self.least {
            return None;
        }
        let Some(place) = self.first_ready(reach) else {
            self.least = reach.saturating_add(1);
            return None;
        };
        let Some(waiter) = self.waiters.remove(place) else {
            unreachable!()
        };
        Some(waiter.ticket)
    }

    // The place of the first whose goal is at most `reach`.
    fn first_ready(&self, reach: u64) -> Option<usize>
        ensures { result ≡ position (is_ready reach) self.now.commits }
    {
        self.waiters.iter().position(|waiter| waiter.goal <= reach)
    }

    /// Takes out the first, or `None` where none waits. Its place is room. Takes no memory.
    #[tactic(auto, using(crate::proofs::WaitingCommits::least_steps))]
    pub fn take_first(&mut self) -> Option<Ticket>
        ensures ticket { result ≡ option_map (λ c. c.ticket) (slice_get self.old.commits 0) }
        ensures others { self.new.commits ≡ drop 1 self.old.commits }
        ensures room { self.new.room ≡ self.old.room + (if is_some result then 1 else 0) }
    {
        let Waiter { goal: _, ticket } = self.waiters.pop_front()?;
        Some(ticket)
    }

    /// How many wait.
    pub fn len(&self) -> usize
        ensures { result ≡ length self.now.commits }
    {
        self.waiters.len()
    }
}

#[cfg(test)]
mod tests {
    use super::*;
    use std::test::Fail;
    use tickets::ReplyDesk;

    #[test]
    fn commits_leave_in_queue_order(rt: HostRuntime) -> Result<(), Fail> {
        let mut desk = ReplyDesk::new(rt.alloc());
        let mut waiting = Waiting::new(rt.alloc());
        for goal in [30, 10, 20, 10] {
            let ticket = desk.issue(1, 7)?;
            waiting.reserve()?;
            waiting.add(goal, ticket);
        }
        assert_eq!(rt; waiting.len(), 4);

        // of those whose goal is reached, number 2 came first, and then 3
        assert_eq!(rt; waiting.take_ready(9).is_none(), true);
        let first = waiting.take_ready(20).ok_or("none is ready")?;
        assert_eq!(rt; first.number(), 2);
        let second = waiting.take_ready(20).ok_or("none is ready")?;
        assert_eq!(rt; second.number(), 3);

        // what is left stands in its order
        let third = waiting.take_first().ok_or("none waits")?;
        assert_eq!(rt; third.number(), 1);
        let fourth = waiting.take_first().ok_or("none waits")?;
        assert_eq!(rt; fourth.number(), 4);
        assert_eq!(rt; waiting.take_first().is_none(), true);
        assert_eq!(rt; waiting.len(), 0);
        Ok(())
    }
}
