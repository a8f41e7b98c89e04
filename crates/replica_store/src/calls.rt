// The calls that a replica or its file answered.
ghost use Rattle.std.specs.Prelude.{◌≡◌, ◌+◌, ◌-◌, ◌^◌, min, true, false};
ghost use Rattle.gw_outside.specs.Causes.{next_count};
ghost use Rattle.gw_outside.specs.Tally.{joined_tally, no_calls, one_call};
ghost use Rattle.gw_outside.specs.declared.tally.Tally.{Tally};

use gw_outside::Tally;

/// How often a fault was answered, and the calls that were made. Both stay at the greatest u64.
#[derive(Clone, Copy)]
pub struct Answered {
    pub(crate) refusals: u64,
    pub(crate) tally: Tally,
}

impl Answered {
    // No call was made.
    pub(crate) fn new() -> Self
        ensures { result ≡ record { refusals = 0; tally = no_calls } }
    {
        Answered {
            refusals: 0,
            tally: Tally::new(),
        }
    }

    // Counts a call that was done.
    pub(crate) fn done(&mut self)
        ensures { self.new ≡ record self.old { tally = one_call false self.old.tally } }
    {
        self.tally.count(false);
    }

    // Counts a call that answers a fault.
    pub(crate) fn fail(&mut self)
        ensures { self.new ≡ record { refusals = next_count self.old.refusals; tally = one_call true self.old.tally } }
    {
        self.refusals = self.refusals.saturating_add(1);
        self.tally.count(true);
    }

    // Adds the calls of a file that was given back, and so many faults.
    pub(crate) fn join(&mut self, refusals: u64, tally: Tally)
        ensures { self.new ≡ record {
          refusals = min (self.old.refusals + refusals) (2 ^ 64 - 1);
          tally = joined_tally self.old.tally tally;
        } }
    {
        self.refusals = self.refusals.saturating_add(refusals);
        self.tally.join(tally);
    }
}
