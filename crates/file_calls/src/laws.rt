// What the definition's sending of answers means for the desk: a law, as a clause. The function does nothing.
ghost use Rattle.file_calls.specs.OneReply.{SendsByCalls};

/// Answers are sent by one call of the desk each, of which `tickets::reply_laws` speaks, and each line goes to whoever waits
/// under its number. So a request gets at most one reply.
pub fn send_laws()
    ensures calls { SendsByCalls }
{}
