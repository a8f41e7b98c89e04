// How many calls were made, and how many failed.
ghost use Rattle.std.specs.Prelude.{◌≡◌};
ghost use Rattle.gw_outside.specs.Tally.{joined_tally, no_calls, one_call};

/// How many calls were made, and how many of them answered their fault. Each number stays at the
/// greatest u64.
#[derive(Clone, Copy, Debug, PartialEq, Eq)]
pub struct Tally {
    pub made: u64,
    pub failed: u64,
}

impl Tally {
    /// No call was made.
    pub const fn new() -> Self
        ensures { result ≡ no_calls }
    {
        Tally { made: 0, failed: 0 }
    }

    /// Counts a call that was done, or failed.
    pub fn count(&mut self, failed: bool)
        ensures { self.new ≡ one_call failed self.old }
    {
        self.made = self.made.saturating_add(1);
        if failed {
            self.failed = self.failed.saturating_add(1);
        }
    }

    /// Adds what another one counted.
    pub fn join(&mut self, other: Tally)
        ensures { self.new ≡ joined_tally self.old other }
    {
        self.made = self.made.saturating_add(other.made);
        self.failed = self.failed.saturating_add(other.failed);
    }
}
