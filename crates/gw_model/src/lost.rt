// The hull of what may be lost.
ghost use Rattle.std.specs.Prelude.{◌≡◌};
ghost use Rattle.gw_model.specs.Admission.{joined_hull};

use crate::Hull;

/// The hull joined with a range from `low` up to but without `high`; an empty range changes nothing.
pub fn join_hull(hull: Option<Hull>, low: u64, high: u64) -> Option<Hull>
    ensures { result ≡ joined_hull hull low high }
{
    if high <= low {
        return hull;
    }
    match hull {
        None => Some(Hull { low, high }),
        Some(lost) => Some(Hull {
            low: lost.low.min(low),
            high: lost.high.max(high),
        }),
    }
}
