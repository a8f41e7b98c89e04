// Laws of the definitions that the contracts of `Put` cite, each a clause. The functions do nothing.
ghost use Rattle.put_core.specs.Calls.{FinishedStays, NextKeepsSource, ReplyKeepsSource};
ghost use Rattle.put_core.specs.Network.{DoneIsDurable, DoneIsSource, RestartEnds, UndisturbedEnds};

/// What an upload comes to over any list of events of the core, the network and the peer: where the core says `Done`, every
/// chunk is durable, so the durable bytes of the file are the source. It does say so of any source where nothing disturbs it,
/// and in a run in which a chunk is lost and the peer restarts.
pub fn upload_law()
    ensures durable { DoneIsDurable }
    ensures whole { DoneIsSource }
    ensures undisturbed { UndisturbedEnds }
    ensures restarted { RestartEnds }
{}

/// `next_call` and `reply` leave the source, the lengths of chunks and windows, and the count of broken links as they are. Once
/// it is done, refused or spent, an upload stays so.
pub fn call_laws()
    ensures next { NextKeepsSource }
    ensures reply { ReplyKeepsSource }
    ensures finished { FinishedStays }
{}
