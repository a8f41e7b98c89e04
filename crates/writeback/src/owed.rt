// What a writer owes, and how it is told.
ghost use Rattle.std.specs.Prelude.{◌≡◌, ◌<◌, ◌∷◌, []};
ghost use Rattle.gw_model.specs.Writer.{answer_refusal};
ghost use Rattle.tickets.specs.Answers.{IsPlain, answer_of};
ghost use Rattle.writeback.specs.State.{fate_answers, owed_answer};

use gw_model::Stable;
use gw_model::status::{NFS3ERR_IO, NFS3ERR_STALE};
use tickets::{Answer, Ticket};

/// An append failed: how many bytes the file then had, those that the append kept among them, and how many it kept.
#[derive(Clone, Copy, Debug, PartialEq, Eq)]
pub struct Failed {
    pub stored: u64,
    pub kept: u64,
}

/// A ticket that waits for a sync.
#[derive(Debug, Drop)]
pub enum Owed {
    Write {
        ticket: Ticket,
        count: u32,
        stable: Stable,
    },
    Commit {
        ticket: Ticket,
    },
}

/// What became of those that waited.
#[derive(Clone, Copy, Debug, PartialEq, Eq)]
pub enum Fate {
    /// A sync was done.
    Durable,
    /// A sync failed.
    Fault,
    /// The file was removed.
    Removed,
}

/// How a sync went.
#[derive(Clone, Copy, Debug, PartialEq, Eq)]
pub enum Synced {
    /// What was stored is durable.
    Done,
    /// The file's hsync failed.
    Failed,
}

impl Owed {
    // It is durable.
    fn done(self) -> Answer
        ensures answer { answer_of result ≡ owed_answer self }
        ensures plain { IsPlain result.body }
    {
        match self {
            Owed::Write {
                ticket,
                count,
                stable,
            } => Answer::wrote(ticket, count, stable),
            Owed::Commit { ticket } => Answer::committed(ticket),
        }
    }

    // It is refused.
    fn refused(self, status: u32) -> Answer
        requires { 0 < status }
        ensures answer { answer_of result ≡ answer_refusal status (owed_answer self) }
        ensures plain { IsPlain result.body }
    {
        match self {
            Owed::Write { ticket, .. } => Answer::not_written(ticket, status),
            Owed::Commit { ticket } => Answer::not_committed(ticket, status),
        }
    }

    /// The answer to one that waited, by what became of it.
    pub fn answered(self, fate: Fate) -> Answer
        ensures answer { answer_of result ∷ [] ≡ fate_answers fate (owed_answer self ∷ []) }
        ensures plain { IsPlain result.body }
    {
        match fate {
            Fate::Durable => self.done(),
            Fate::Fault => self.refused(NFS3ERR_IO),
            Fate::Removed => self.refused(NFS3ERR_STALE),
        }
    }
}
