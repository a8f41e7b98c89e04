// The refusals that a call left to be handed out.
ghost use Rattle.std.specs.Prelude.{◌≡◌, ◌+◌, ◌<◌, ◌≤◌, [], ◌++◌, length, OnOk};
ghost use Rattle.std.specs.VecDeque.{DequeUnchanged, deque_capacity};
ghost use Rattle.tickets.specs.Answers.{ArePlain, answers_of};
ghost use Rattle.admit.specs.GivenUp.{Hands};
ghost use Rattle.admit.specs.Sending.{load_with};

use crate::line::Queue;
use crate::seen::Seen;
use commit_queue::Waiting;
use gw_model::NoMemory;
use range_map::PendingMap;
use std::alloc::Global;
use std::collections::VecDeque;
use std::marker::Model;
use tickets::Answer;

/// The refusals that a call left, in the order in which they are handed out. Room for them is made before they are owed.
#[derive(Drop)]
pub struct Refusals {
    answers: VecDeque<Answer>,
}

impl Model for Refusals {
    ghost use Rattle.std.specs.Prelude.{◌-◌, map};
    ghost use Rattle.std.specs.List.{All};
    ghost use Rattle.std.specs.VecDeque.{deque_len, deque_capacity};
    ghost use Rattle.tickets.specs.Answers.{IsPlain, answer_of};
    ghost use Rattle.admit.specs.GivenUp.{RefusalsState};

    ghost Value = { RefusalsState };

    ghost view = { λ r. record { answers = map answer_of r.answers.items; room = deque_capacity r.answers - deque_len r.answers } };

    ghost invariant = { λ r. All (λ a. IsPlain a.body) r.answers.items };
}

impl Refusals {
    /// None, and takes no memory.
    pub fn new(alloc: Global) -> Self
        ensures { result.answers ≡ [] }
    {
        Refusals {
            answers: VecDeque::new(alloc),
        }
    }

    /// Leaves the answer, if there is one, in the room that there is.
    pub fn push(&mut self, answer: Option<Answer>)
        requires room { 0 < self.old.room }
        requires plain { ArePlain answer }
        ensures answers { self.new.answers ≡ self.old.answers ++ answers_of answer }
        ensures room { self.old.room ≤ self.new.room + 1 }
    {
        if let Some(answer) = answer {
            self.answers.push_back_reserved(answer);
        }
    }

    /// Hands the first out. Its place is room.
    pub fn next(&mut self) -> Option<Answer>
        ensures hands { Hands result self.old.answers self.new.answers }
        ensures room { self.old.room ≤ self.new.room }
    {
        self.answers.pop_front()
    }
}

/// Makes room for all that is held and for one request more: for the refusals, and among the ready jobs. Want of memory
/// changes nothing of what is held.
pub fn make_room<M: PendingMap>(
    left: &mut Refusals,
    seen: &Seen<M>,
    waiting: &Waiting,
    queue: &mut Queue,
) -> Result<(), NoMemory>
    ensures room { OnOk result (load_with queue.new seen.now + length waiting.now.commits < left.new.room) }
    ensures jobs { OnOk result (load_with queue.new seen.now + length waiting.now.commits < deque_capacity queue.new.ready) }
    ensures grows { left.old.room ≤ left.new.room }
    ensures answers { left.new.answers ≡ left.old.answers }
    ensures ready { DequeUnchanged queue.old.ready queue.new.ready }
    ensures line { queue.new.line ≡ queue.old.line }
{
    let most = (seen.pending_len() + 1).saturating_add(waiting.len());
    let all = most.saturating_add(queue.ready.len());
    left.answers.reserve(all).map_err(|_| NoMemory)?;
    queue.ready.reserve(most).map_err(|_| NoMemory)
}
