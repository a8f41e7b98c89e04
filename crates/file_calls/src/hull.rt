// What is lost of a file that is closed.
ghost use Rattle.std.specs.Prelude.{◌≡◌, Some, Option};
ghost use Rattle.gw_model.specs.Admission.{hull_bars};
ghost use Rattle.file_calls.specs.Terms.{closed_hull, opening_hull};

use gw_model::Hull;

/// The lost hull of a closed file, which is kept until the file is opened and closed anew, or the gateway starts anew.
#[derive(Clone, Copy, Debug, PartialEq, Eq)]
pub struct ClosedHull {
    /// The range in which answered writes may be lost.
    pub hull: Hull,
    /// How many bytes were stored when the file was closed.
    pub size: u64,
}

impl ClosedHull {
    /// The hull that a file of so many stored bytes is closed with.
    pub fn of(hull: Option<Hull>, size: u64) -> Option<ClosedHull>
        ensures { result ≡ closed_hull hull size }
    {
        match hull {
            Some(hull) => Some(ClosedHull { hull, size }),
            None => None,
        }
    }

    /// Whether a COMMIT up to a limit asks for bytes that may be lost.
    pub fn bars(&self, limit: u64) -> bool
        ensures { result ≡ hull_bars (Some self.now.hull) limit self.now.size }
    {
        self.hull.low < limit && self.size < self.hull.high
    }
}

/// The hull that a file is opened with.
pub fn opening_hull(lost: Option<ClosedHull>) -> Option<Hull>
    ensures { result ≡ opening_hull lost }
{
    match lost {
        Some(lost) => Some(lost.hull),
        None => None,
    }
}
