// Tickets that are kept, or spent at once.
ghost use Rattle.std.specs.Prelude.{◌≡◌, not, is_some, if◌then◌else◌, Some, None};
ghost use Rattle.gw_model.specs.Admission as model;

use gw_model::Stable;
use tickets::Ticket;

/// The ticket to keep, and the one to answer at once.
pub fn split_ticket(ticket: Ticket, at_once: bool) -> (Option<Ticket>, Option<Ticket>)
    ensures kept { result.0 ≡ (if at_once then None else Some ticket) }
    ensures owed { result.1 ≡ (if at_once then Some ticket else None) }
{
    if at_once {
        (None, Some(ticket))
    } else {
        (Some(ticket), None)
    }
}

/// The ticket that is there.
pub fn given_back(kept: Option<Ticket>, owed: Option<Ticket>) -> Ticket
    requires { is_some kept ≡ not (is_some owed) }
    ensures { Some result ≡ (if is_some kept then kept else owed) }
{
    match kept {
        Some(ticket) => ticket,
        None => match owed {
            Some(ticket) => ticket,
            None => unreachable!(),
        },
    }
}

/// Whether a write may be answered before it is durable.
pub fn is_unstable(stable: Stable) -> bool
    ensures { result ≡ model.is_unstable stable }
{
    matches!(stable, Stable::Unstable)
}
