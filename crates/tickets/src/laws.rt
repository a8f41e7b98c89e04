// What a desk promises over any list of calls: laws of the definitions that its contracts cite, each a clause. The
// functions do nothing.
ghost use Rattle.tickets.specs.Laws.{StaysSound, AtMostOneReply, NeverWaitsAgain, WaitsNoMore, CancelsAll, NumbersRise, RepliesToAskers, CountsReplies, FindsItsTicket};

/// Each number gets at most one reply over any list of calls, and the reply goes to whoever the number was issued to.
/// The count of replies is how many were sent.
pub fn reply_laws()
    ensures one { AtMostOneReply }
    ensures askers { RepliesToAskers }
    ensures counts { CountsReplies }
    ensures finds { FindsItsTicket }
{}

/// Numbers rise, and one that doesn't wait any more never waits again: after its reply, after its ticket was dropped, or
/// after its connection was cancelled.
pub fn number_laws()
    ensures sound { StaysSound }
    ensures rise { NumbersRise }
    ensures no_more { WaitsNoMore }
    ensures cancels { CancelsAll }
    ensures never_again { NeverWaitsAgain }
{}
